//! What a program on pipes says.
ghost use Rattle.std.specs.Prelude.{◌<◌, ◌++◌, ◌∷◌, [], length, OnOk};
ghost use Rattle.std.specs.Io.KnownBytes.{Appends};
ghost use Rattle.child_programs.specs.Response.{response_of, HasRoom, IsActed};

use crate::hearing::Reaction;
use plain_text::Line;
use std::io;
use std::io::Write;

/// Says a line: it and its newline in one write.
fn say<O: Write>(line: &mut Line, output: &mut O) -> io::Result<()>
    requires { length line.old < 4096 }
    ensures { OnOk result (Appends (O.contents output.old) (O.contents output.new) (line.old ++ 10 ∷ [])) }
{
    line.put(b"\n");
    output.write_all(line.bytes())?;
    output.flush()
}

/// Does what is to be done. The exit status where the program ends then: 1 where it can't say its answer.
pub(crate) fn act<O: Write>(step: Reaction, answer: &mut Line, output: &mut O) -> Option<u8>
    requires { HasRoom (response_of step answer.old) }
    ensures { IsActed (response_of step answer.old) result (λ text. Appends (O.contents output.old) (O.contents output.new) text) }
{
    match step {
        Reaction::Quiet => None,
        Reaction::Says => match say(answer, output) {
            Ok(()) => None,
            Err(_) => Some(1),
        },
        Reaction::Leaves => match say(answer, output) {
            Ok(()) => Some(0),
            Err(_) => Some(1),
        },
        Reaction::Fails => Some(1),
    }
}
