//! Why a transcript is not certified: a crate below all that only name the code, so that these need no certifier.
#![tactic(auto)]

use std::alloc::AllocError;
use std::error::Error;
use std::fmt;

/// Why a transcript is not certified.
#[derive(Clone, Copy, Debug, PartialEq, Eq)]
pub enum Mismatch {
    /// Y4: the target can't be carried out: the record disagrees, there is no plan, or numbers are lacking.
    Refused,
    /// Y1: this entry, counted from 1, can't stand there.
    Step(usize),
    /// Y3: the plan isn't at an end.
    Short,
    /// Y2: the report is another.
    Report,
    /// Memory was refused.
    Memory,
}

impl fmt::Display for Mismatch {
    ghost use Rattle.std.specs.Prelude.{Some};
    ghost use Rattle.mismatches.specs.Codes.{mismatch_code};

    ghost output = { λ why. Some (mismatch_code why) };

    fn fmt<W: fmt::Write>(&self, f: &mut fmt::Formatter<W>) -> fmt::Result {
        match self {
            Mismatch::Refused => f.write_str("Y4"),
            Mismatch::Step(number) => write!(f, "Y1 {number}"),
            Mismatch::Short => f.write_str("Y3"),
            Mismatch::Report => f.write_str("Y2"),
            Mismatch::Memory => f.write_str("memory"),
        }
    }
}

impl Error for Mismatch {}

impl From<AllocError> for Mismatch {
    ghost use Rattle.std.specs.Prelude.{◌≡◌};
    ghost use Rattle.mismatches.specs.declared.Mismatch.TheVariants.{Memory};

    ghost from_gives = { λ _ why. why ≡ Memory };

    fn from(_error: AllocError) -> Mismatch {
        Mismatch::Memory
    }
}
