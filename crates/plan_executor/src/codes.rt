//! The codes of targets that are not carried out.
use crate::EnactRefusal;
use itoa::Buffer;
use mismatches::Mismatch;
use std::error::Error;
use std::fmt;
use word_runner::{CodeText, TargetRefusal};

/// Want of memory, or the code.
impl From<EnactRefusal> for TargetRefusal {
    ghost use Rattle.std.specs.Prelude.{◌≡◌};
    ghost use Rattle.plan_executor.specs.Codes.{target_refusal};

    ghost from_gives = { λ refusal it. it ≡ target_refusal refusal };

    fn from(refusal: EnactRefusal) -> TargetRefusal {
        match refusal {
            EnactRefusal::Memory => TargetRefusal::Memory,
            refusal => TargetRefusal::Coded(CodeText::from(refusal)),
        }
    }
}

/// The code of a target's refusal.
impl From<EnactRefusal> for CodeText {
    ghost use Rattle.std.specs.Prelude.{◌≡◌};
    ghost use Rattle.plan_executor.specs.Codes.{enact_code};

    ghost from_gives = { λ refusal code. code ≡ enact_code refusal };

    fn from(refusal: EnactRefusal) -> CodeText {
        match refusal {
            EnactRefusal::Memory => CodeText::of("E1", ""),
            EnactRefusal::RecordDisagrees => CodeText::of("E2", ""),
            EnactRefusal::Plan(refusal) => CodeText::unplanned(refusal),
            EnactRefusal::MasterNamed(moment) => {
                CodeText::of("E4 ", Buffer::new().format(moment))
            }
            EnactRefusal::NoNumbers => CodeText::of("E5", ""),
        }
    }
}

/// What is refused of an enactment, a certificate refuses; want of memory stays that.
impl From<EnactRefusal> for Mismatch {
    ghost use Rattle.std.specs.Prelude.{◌≡◌};
    ghost use Rattle.plan_executor.specs.Codes.{mismatch_of};

    ghost from_gives = { λ refusal why. why ≡ mismatch_of refusal };

    fn from(refusal: EnactRefusal) -> Mismatch {
        match refusal {
            EnactRefusal::Memory => Mismatch::Memory,
            _ => Mismatch::Refused,
        }
    }
}

/// Printed as its code.
impl fmt::Display for EnactRefusal {
    ghost use Rattle.std.specs.Prelude.{Some};
    ghost use Rattle.plan_executor.specs.Codes.{enact_code};

    ghost output = { λ refusal. Some (enact_code refusal) };

    fn fmt<W: fmt::Write>(&self, f: &mut fmt::Formatter<W>) -> fmt::Result {
        f.write_str(CodeText::from(*self).as_str())
    }
}

impl Error for EnactRefusal {}
