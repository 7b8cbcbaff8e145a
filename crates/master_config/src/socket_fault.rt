//! Why the options of a socket are refused.
ghost use Rattle.std.specs.Prelude.{◌≡◌};

use crate::SocketKey;
use std::fmt;

/// Why the options of a socket are refused: the first rule that they break. It is written as its code.
#[derive(Clone, Copy, Debug, PartialEq, Eq)]
pub enum SocketFault {
    /// S1: they are no table.
    NotTable,
    /// S2: a key is none of such a socket's.
    UnknownKey,
    /// S3 to S7, by the key: the value is not of the key's kind, or out of its range.
    BadValue(SocketKey),
}

impl SocketFault {
    ghost use Rattle.master_config.specs.Codes.{socket_code};

    /// The code of the rule.
    pub fn code(&self) -> &'static str
        ensures { result.now ≡ socket_code self.now }
    {
        match self {
            SocketFault::NotTable => "S1",
            SocketFault::UnknownKey => "S2",
            SocketFault::BadValue(SocketKey::Backlog) => "S3",
            SocketFault::BadValue(SocketKey::DeferAccept) => "S4",
            SocketFault::BadValue(SocketKey::Group) => "S5",
            SocketFault::BadValue(SocketKey::Mode) => "S6",
            SocketFault::BadValue(SocketKey::Owner) => "S7",
        }
    }
}

/// Printed as its code.
impl fmt::Display for SocketFault {
    ghost use Rattle.std.specs.Prelude.{Some};
    ghost use Rattle.master_config.specs.Codes.{socket_code};

    ghost output = { λ fault. Some (socket_code fault) };

    fn fmt<W: fmt::Write>(&self, f: &mut fmt::Formatter<W>) -> fmt::Result {
        f.write_str(self.code())
    }
}
