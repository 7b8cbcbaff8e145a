//! Lines that are said to one child.
ghost use Rattle.std.specs.Prelude.{map, length, ◌≤◌};
ghost use Rattle.vocabulary.specs.declared.table.Listener.{Listener as Listed};
ghost use Rattle.plain_text.specs.Lines.{lines_of};
ghost use Rattle.child_family.specs.Lines.{listener_line};
ghost use Rattle.child_edge.specs.Each.{says_lines};
ghost use Rattle.child_edge.specs.Turns.{Begins};

use child_family::{Family, listener_line};
use plain_text::first_line;
use vocabulary::Listener;

/// Tells a worker where it listens, whatever becomes of it.
pub(crate) fn say_listeners<F: Family>(family: &mut F, id: u32, listeners: &[Listener])
    ensures { Begins (F.told family.old) (F.told family.new) (says_lines id (map (λ (l : Listed). listener_line l.address) listeners.now)) }
{
    for listener in listeners {
        family.say(id, listener_line(&listener.address).bytes());
    }
}

/// Says each line of a text, whatever becomes of it.
pub(crate) fn say_text<F: Family>(family: &mut F, id: u32, text: &[u8])
    ensures { Begins (F.told family.old) (F.told family.new) (says_lines id (lines_of text.now)) }
{
    let mut rest = text;
    while !rest.is_empty() {
        let (line, more) = first_line(rest);
        family.say(id, line);
        rest = more;
    }
}
