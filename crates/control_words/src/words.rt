//! Control words and how they are written.
ghost use Rattle.std.specs.Prelude.{◌≡◌, ◌++◌, ◌∷◌, IfOk};
ghost use Rattle.std.specs.Fmt.{decimal};
ghost use Rattle.plain_text.specs.Kept.{kept};

use plain_text::{Sink, write_number};
use std::fmt;

/// What an operator asks of a master. The words without a number are named after Unicorn's signals.
#[derive(Clone, Copy, Debug, PartialEq, Eq)]
pub enum Word {
    /// `HUP`: read the configuration anew, and go over to it.
    Hup,
    /// `QUIT`: stop, once requests in progress are finished.
    Quit,
    /// `INT`: stop at once.
    Int,
    /// `TERM`: stop at once.
    Term,
    /// `USR1`: reopen the logs.
    Usr1,
    /// `USR2`: go over to a new master, of the new executable and configuration.
    Usr2,
    /// `USR2 attended`: the same, but the operator is asked twice whether to go on or back.
    Usr2Attended,
    /// `WINCH`: no workers.
    Winch,
    /// `TTIN`: one worker more.
    Ttin,
    /// `TTOU`: one worker less.
    Ttou,
    /// `beat K NOW`: the worker with this number, from 0 to 1023, lives at this moment of the clock.
    Beat { nr: u32, now: u64 },
    /// `tick NOW`: start the workers that are overdue at this moment of the clock anew, and those that are missing.
    Tick { now: u64 },
}

/// The words that are a name alone.
const SIGNALS: [Word; 10] = [
    Word::Hup,
    Word::Quit,
    Word::Int,
    Word::Term,
    Word::Usr1,
    Word::Usr2,
    Word::Usr2Attended,
    Word::Winch,
    Word::Ttin,
    Word::Ttou,
];

/// A number after a space.
#[tactic(auto, using(plain_text::proofs::KeptTexts::kept_on))]
fn write_spaced<S: Sink>(out: &mut S, number: u64) -> Result<(), S::Refusal>
    ensures { IfOk result (λ _. S.text out.new ≡ kept S.most (S.text out.old ++ 32 ∷ decimal number)) }
{
    out.put(b" ")?;
    write_number(out, number)
}

impl Word {
    ghost use Rattle.control_words.specs.Words.{word_name, word_text, signal_of};

    /// The name of the word, which its numbers follow where it has some.
    pub fn name(&self) -> &'static str
        ensures { result.now ≡ word_name self.now }
    {
        match self {
            Word::Hup => "HUP",
            Word::Quit => "QUIT",
            Word::Int => "INT",
            Word::Term => "TERM",
            Word::Usr1 => "USR1",
            Word::Usr2 => "USR2",
            Word::Usr2Attended => "USR2 attended",
            Word::Winch => "WINCH",
            Word::Ttin => "TTIN",
            Word::Ttou => "TTOU",
            Word::Beat { .. } => "beat",
            Word::Tick { .. } => "tick",
        }
    }

    /// Puts the word after what was written: its name, and each of its numbers after a space.
    #[tactic(auto, using(plain_text::proofs::KeptTexts::kept_on))]
    pub fn write<S: Sink>(&self, out: &mut S) -> Result<(), S::Refusal>
        ensures { IfOk result (λ _. S.text out.new ≡ kept S.most (S.text out.old ++ word_text self.now)) }
    {
        out.put(self.name().as_bytes())?;
        match self {
            Word::Beat { nr, now } => {
                write_spaced(out, u64::from(*nr))?;
                write_spaced(out, *now)
            }
            Word::Tick { now } => write_spaced(out, *now),
            _ => Ok(()),
        }
    }

    /// The word of a line that is a name alone.
    pub(crate) fn signal_of(line: &[u8]) -> Option<Word>
        ensures { result ≡ signal_of line.now }
    {
        SIGNALS
            .iter()
            .copied()
            .find(|word| word.name().as_bytes() == line)
    }
}

impl fmt::Display for Word {
    ghost use Rattle.std.specs.Prelude.{Some};
    ghost use Rattle.control_words.specs.Words.{word_text};

    ghost output = { λ word. Some (word_text word) };

    fn fmt<W: fmt::Write>(&self, f: &mut fmt::Formatter<W>) -> fmt::Result {
        match self {
            Word::Beat { nr, now } => write!(f, "{} {nr} {now}", self.name()),
            Word::Tick { now } => write!(f, "{} {now}", self.name()),
            _ => f.write_str(self.name()),
        }
    }
}
