//! Refusals of lines and words.
ghost use Rattle.std.specs.Prelude.{◌≡◌};

use std::error::Error;
use std::fmt;

/// Why a line or a word is refused. It is printed as its code.
#[derive(Clone, Copy, Debug, PartialEq, Eq)]
pub enum WordRefusal {
    /// W1: the line is no control word.
    Unknown,
    /// W2: behind `beat` or `tick` there stand not exactly its numbers.
    BadNumber,
    /// W3: there are 1024 workers already.
    AtMost,
    /// W4: there are no settings to take up.
    NoConfig,
    /// W5: the settings name another pid file than the one that is in use, or one where there was none, or none where
    /// there was one.
    PidChanged,
}

impl WordRefusal {
    ghost use Rattle.control_words.specs.Words.{refusal_code};

    /// The code of the rule, as it is printed.
    pub fn code(&self) -> &'static str
        ensures { result.now ≡ refusal_code self.now }
    {
        match self {
            WordRefusal::Unknown => "W1",
            WordRefusal::BadNumber => "W2",
            WordRefusal::AtMost => "W3",
            WordRefusal::NoConfig => "W4",
            WordRefusal::PidChanged => "W5",
        }
    }
}

/// Printed as its code.
impl fmt::Display for WordRefusal {
    ghost use Rattle.std.specs.Prelude.{Some};
    ghost use Rattle.control_words.specs.Words.{refusal_code};

    ghost output = { λ refusal. Some (refusal_code refusal) };

    fn fmt<W: fmt::Write>(&self, f: &mut fmt::Formatter<W>) -> fmt::Result {
        f.write_str(self.code())
    }
}

impl Error for WordRefusal {}
