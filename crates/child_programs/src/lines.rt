//! Lines of short texts.
ghost use Rattle.std.specs.Prelude.{◌≡◌, ◌<◌, length};

use plain_text::Line;

/// Makes a line of a short text.
pub(crate) fn write_text(line: &mut Line, text: &[u8])
    requires { length text.now < 4096 }
    ensures { line.new ≡ text.now }
{
    line.clear();
    line.put(text);
}
