//! Reading a handover.
ghost use Rattle.std.specs.Prelude.{◌≡◌, IfOk};
ghost use Rattle.handover_text.specs.Reading.{reading};
ghost use Rattle.handover_text.specs.Ranges.{IsHandover, IsSpelling};

use crate::Handover;
use crate::reader::HandoverReader;
use plain_text::cut;
use vocabulary::HandoverRefusal;

/// Reads a handover. Each line ends in a newline, and has single spaces: `handover 2`; `old-pid` and a process number
/// from 1 to 4,294,967,295; `generation` and two numbers from 0 to 4,294,967,295; from 1 to 64 lines of `listener`, a
/// descriptor from 3 to 66 and an address, in ascending descriptors and with distinct addresses; from 1 to 16 groups, each
/// `group` and a number of workers, and then a line of `want` and an address for each of its addresses, at least one; at
/// most one line of `pid-file` and a path of at most 100 bytes; `end`. The addresses of all groups are distinct and at
/// most 64, and their workers at most 1024. Behind `handover 1` stand, in the place of the groups, from 1 to 64 lines of
/// `want`, and `workers` and a number from 0 to 1024: they are of one group.
///
/// Any other text is refused by its first line that is wrong: `Version` where it is the first one, `OutOfOrder` where it
/// is a listener whose descriptor is not above the one before, `Line` where it is another, or where the listener's
/// address is one before. `Cut` where the text ends before the line `end`, and `Trailing` where more follows it.
pub fn read(text: &[u8]) -> Result<Handover, HandoverRefusal>
    ensures exact { result ≡ reading text.now }
    ensures in_range { IfOk result IsHandover }
    ensures spelled { IfOk result (λ told. IsSpelling text.now told) }
{
    let mut reader = HandoverReader::new();
    let mut rest = text;
    let mut number = 1;
    while let Some((line, behind)) = cut(rest, b'\n') {
        reader.read_line(number, line)?;
        rest = behind;
        number += 1;
    }
    reader.finish(rest)
}
