//! How long a child may keep its master waiting.
ghost use Rattle.std.specs.Prelude.{◌≡◌};
ghost use Rattle.child_processes.specs.Limits.{seconds_for, owed_by};

use child_family::Role;
use std::fmt;

/// How long a child may keep its master waiting, in seconds; 0 is without a limit.
#[derive(Clone, Copy, Debug, PartialEq, Eq)]
pub struct ChildLimits {
    /// For an answer, and for room in its input.
    pub answer: u32,
    /// For its first line, since it may have to load first, and for its end once it was told to quit. A new master has
    /// eight times as long for a call, which may wait for its own children.
    pub ready: u32,
}

/// What a child owes to its master.
#[derive(Clone, Copy, Debug, PartialEq, Eq)]
pub(crate) enum Debt {
    /// Its first line.
    Readiness,
    /// An answer to a line.
    Answer,
    /// An answer of a new master to a call.
    Call,
    /// Its end.
    End,
    /// Room for a line in its input.
    Room,
}

impl ChildLimits {
    /// How many seconds a child has for what it owes; 0 is without a limit.
    pub(crate) fn seconds(&self, debt: Debt) -> u64
        ensures { result ≡ seconds_for self.now debt }
    {
        match debt {
            Debt::Answer | Debt::Room => u64::from(self.answer),
            Debt::Readiness | Debt::End => u64::from(self.ready),
            Debt::Call => 8 * u64::from(self.ready),
        }
    }
}

/// What a child owes that is heard.
pub(crate) fn owed(is_master: bool, has_spoken: bool, told_to_quit: bool) -> Debt
    ensures { result ≡ owed_by is_master has_spoken told_to_quit }
{
    if !has_spoken {
        Debt::Readiness
    } else if is_master {
        Debt::Call
    } else if told_to_quit {
        Debt::End
    } else {
        Debt::Answer
    }
}

/// Printed as what it did not do.
impl fmt::Display for Debt {
    fn fmt<W: fmt::Write>(&self, f: &mut fmt::Formatter<W>) -> fmt::Result {
        f.write_str(match self {
            Debt::Readiness => "not ready",
            Debt::Answer | Debt::Call => "no answer",
            Debt::End => "no end",
            Debt::Room => "no room in its input",
        })
    }
}

/// A child, as it is named in the log.
#[derive(Clone, Copy)]
pub(crate) struct RoleText(pub(crate) Role);

impl fmt::Display for RoleText {
    fn fmt<W: fmt::Write>(&self, f: &mut fmt::Formatter<W>) -> fmt::Result {
        match self.0 {
            Role::Worker { generation, nr, .. } => write!(
                f,
                "worker {}.{} {}",
                generation.image, generation.config, nr
            ),
            Role::Master { image } => write!(f, "master {image}"),
        }
    }
}
