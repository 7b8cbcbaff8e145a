//! Why a command line asks for nothing.
ghost use Rattle.std.specs.Prelude.{◌≡◌};
ghost use Rattle.command_line.specs.declared.refusal.Refusal.TheVariants.{Memory, Usage};

use std::alloc::AllocError;
use std::error::Error;
use std::fmt;

/// Why a command line asks for nothing.
#[derive(Clone, Copy, Debug, PartialEq, Eq)]
pub enum Refusal {
    /// An unknown, repeated or missing argument, or a number that isn't spelled as one.
    Usage,
    /// Memory was refused.
    Memory,
}

impl Refusal {
    ghost use Rattle.command_line.specs.Codes.{refusal_code};

    /// The word for it, as it is printed.
    pub fn code(&self) -> &'static str
        ensures { result.now ≡ refusal_code self.now }
    {
        match self {
            Refusal::Usage => "usage",
            Refusal::Memory => "memory",
        }
    }
}

/// Printed as its code.
impl fmt::Display for Refusal {
    ghost use Rattle.std.specs.Prelude.{Some};
    ghost use Rattle.command_line.specs.Codes.{refusal_code};

    ghost output = { λ refusal. Some (refusal_code refusal) };

    fn fmt<W: fmt::Write>(&self, f: &mut fmt::Formatter<W>) -> fmt::Result {
        f.write_str(self.code())
    }
}

impl Error for Refusal {}

impl From<AllocError> for Refusal {
    ghost from_gives = { λ _ refusal. refusal ≡ Memory };

    fn from(_error: AllocError) -> Refusal {
        Refusal::Memory
    }
}

/// The arguments ask for nothing that there is. What can fail by nothing else has this error, so
/// that it cannot be taken for want of memory.
#[derive(Clone, Copy, Debug)]
pub(crate) struct UsageFault;

impl From<UsageFault> for Refusal {
    ghost from_gives = { λ _ refusal. refusal ≡ Usage };

    fn from(_fault: UsageFault) -> Refusal {
        Refusal::Usage
    }
}
