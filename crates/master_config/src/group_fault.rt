//! Why a group of a configuration is refused.
ghost use Rattle.std.specs.Prelude.{◌≡◌};

use crate::Key;
use listener_set::AddressRefusal;
use std::fmt;

/// Why a group of a configuration is refused: the first rule that it breaks. It is written as the same rule of a
/// configuration is, with its code: `C2`, `C3 workers`, `C6 0`, `C5 0 A3`.
#[derive(Clone, Copy, Debug, PartialEq, Eq)]
pub enum GroupFault {
    /// C2: a key is none of a group's.
    UnknownKey,
    /// C3: the value is not a whole number or a list of texts, as the key wants it.
    WrongKind(Key),
    /// C4: the workers are fewer than 0, or with the groups before there are more than 1024 workers or 64 listeners.
    OutOfRange(Key),
    /// C5: the group's listener at the index, counted from 0, is no address.
    BadAddress(usize, AddressRefusal),
    /// C6: the group's listener at the index, counted from 0, was there before, in this group or one before it.
    Doubled(usize),
    /// C7: the group has no listener.
    NoListener,
}

impl GroupFault {
    ghost use Rattle.master_config.specs.Codes.{group_code};

    /// The code of the rule, without what it is about.
    pub fn code(&self) -> &'static str
        ensures { result.now ≡ group_code self.now }
    {
        match self {
            GroupFault::UnknownKey => "C2",
            GroupFault::WrongKind(_) => "C3",
            GroupFault::OutOfRange(_) => "C4",
            GroupFault::BadAddress(..) => "C5",
            GroupFault::Doubled(_) => "C6",
            GroupFault::NoListener => "C7",
        }
    }
}

/// Printed as its code, with what it is about.
impl fmt::Display for GroupFault {
    ghost use Rattle.std.specs.Prelude.{Some};
    ghost use Rattle.master_config.specs.Codes.{group_text};

    ghost output = { λ fault. Some (group_text fault) };

    fn fmt<W: fmt::Write>(&self, f: &mut fmt::Formatter<W>) -> fmt::Result {
        let code = self.code();
        match self {
            GroupFault::WrongKind(key) => write!(f, "{code} {key}"),
            GroupFault::OutOfRange(key) => write!(f, "{code} {key}"),
            GroupFault::BadAddress(index, refusal) => {
                write!(f, "{code} {index} {}", refusal.code())
            }
            GroupFault::Doubled(index) => write!(f, "{code} {index}"),
            _ => f.write_str(code),
        }
    }
}
