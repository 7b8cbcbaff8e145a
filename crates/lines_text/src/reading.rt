//! Texts, read line by line.
ghost use Rattle.std.specs.Prelude.{◌≡◌, ◌≢◌, Ok, Err, IfOk, IfErr};
ghost use Rattle.plain_text.specs.Lines.{lines_of};
ghost use Rattle.lines_text.specs.Reading.{reading_of};

use crate::TextRefusal;
use plain_text::first_line;
use std::alloc::Global;

/// Takes in the lines of a text one after another, and gives what they say.
///
/// It says what each line adds to what is known, so that `read_lines` is exact for every text of lines.
pub trait TakesLines {
    ghost use Rattle.std.specs.Prelude.{◌≡◌, ◌≢◌, ℕ, List, Result, Ok, Err, OnOk, IfOk, IfErr};
    ghost use Rattle.lines_text.specs.declared.refusal.TextRefusal.{TextRefusal as Refused};

    /// What all lines say.
    type Value;

    /// What is known of the lines so far.
    ghost Reading: { Type 0 };

    ghost seen: { Self → Reading };

    /// What is known after a line with this number, or why the line is refused.
    ghost taken: { ℕ → Reading → List ℕ → Result Reading Refused };

    /// What all lines mean.
    ghost Meaning: { Type 0 };

    ghost meaning: { Self.Value → Meaning };

    /// What all lines mean where the text ends before the line with this number, or why it can't end there.
    ghost finished: { ℕ → Reading → Result Meaning Refused };

    /// Takes in the line with this number, without its newline, or refuses it. Any bytes may come.
    fn take(&mut self, alloc: Global, number: usize, line: &[u8]) -> Result<(), TextRefusal>
        ensures ok { OnOk result (taken number (seen self.old) line.now ≡ Ok (seen self.new)) }
        ensures err { IfErr result (λ e. e ≢ TextRefusal.Memory → taken number (seen self.old) line.now ≡ Err e) };

    /// What all lines say, where the text ends before the line with this number.
    fn finish(self, number: usize) -> Result<Self::Value, TextRefusal>
        ensures ok { IfOk result (λ value. finished number (seen self) ≡ Ok (meaning value)) }
        ensures err { IfErr result (λ e. e ≢ TextRefusal.Memory → finished number (seen self) ≡ Err e) };
}

/// What the lines of a text say, or the refusal of the first line that can't be taken in. Lines are counted from 1, and the
/// very last newline may be missing. Any bytes may come.
pub fn read_lines<R: TakesLines + Drop>(
    alloc: Global,
    reader: R,
    text: &[u8],
) -> Result<R::Value, TextRefusal>
    ensures ok { IfOk result (λ value. reading_of R.taken R.finished 1 (R.seen reader) (lines_of text.now) ≡ Ok (R.meaning value)) }
    ensures err { IfErr result (λ e. e ≢ TextRefusal.Memory → reading_of R.taken R.finished 1 (R.seen reader) (lines_of text.now) ≡ Err e) }
{
    let mut reader = reader;
    let mut rest = text;
    let mut number = 1;
    while !rest.is_empty() {
        let (line, behind) = first_line(rest);
        reader.take(alloc, number, line)?;
        number += 1;
        rest = behind;
    }
    reader.finish(number)
}
