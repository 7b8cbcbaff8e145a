//! Why there is no configuration.
ghost use Rattle.std.specs.Prelude.{◌≡◌};

use crate::{GroupFault, Key, SocketFault};
use listener_set::AddressRefusal;
use std::alloc::AllocError;
use std::error::Error;
use std::fmt;

/// Why there is no configuration: the first rule that its text breaks, or that its file can't be read, or that memory was
/// refused. It is written as its code, with the key, the index or the address's code that it is about, or the index
/// of a group or a listener and its fault: `C1`, `C3 workers`, `C6 1`, `C5 0 A3`, `C11 1 C6 0`, `C15 0 S6`.
#[derive(Clone, Copy, Debug, PartialEq, Eq)]
pub enum ConfigRefusal {
    /// C1: the text is not TOML.
    NotToml,
    /// C2: a key is none of a configuration's.
    UnknownKey,
    /// C3: the value is not a whole number, a text, or a list of texts or of tables, as the key wants it.
    WrongKind(Key),
    /// C4: the number is out of the key's range, there are more than 64 listeners, or not 1 to 16 groups.
    OutOfRange(Key),
    /// C5: the listener at the index, counted from 0, is no address.
    BadAddress(usize, AddressRefusal),
    /// C6: the listener at the index, counted from 0, was there before.
    Doubled(usize),
    /// C7: there is no listener.
    NoListener,
    /// C8: the pid file's path is none.
    BadPid,
    /// C9: the command has no text or more than 16, or one that is empty, longer than 255 bytes or has a byte 0.
    BadCommand,
    /// C10: listeners or workers stand beside groups.
    Mixed,
    /// C11: the group at the index, counted from 0, breaks this rule.
    Group(usize, GroupFault),
    /// C12: the value of `service` is no table. Its keys are the service's: a master does not look at them.
    BadService,
    /// C13: the value of `sockets` is no table. A master checks the options of its sockets, and does not use them.
    BadSockets,
    /// C14: `sockets` has options for a text that is the address of no listener.
    NoSuchListener,
    /// C15: the options of the listener at the index, counted from 0 over all groups, break this rule.
    Socket(usize, SocketFault),
    /// The file can't be read.
    Unreadable,
    /// Memory was refused.
    Memory,
}

impl ConfigRefusal {
    ghost use Rattle.master_config.specs.Codes.{config_code};

    /// The code of the rule, without what it is about; `file` where the file can't be read, and `memory` where memory was
    /// refused.
    pub fn code(&self) -> &'static str
        ensures { result.now ≡ config_code self.now }
    {
        match self {
            ConfigRefusal::NotToml => "C1",
            ConfigRefusal::UnknownKey => "C2",
            ConfigRefusal::WrongKind(_) => "C3",
            ConfigRefusal::OutOfRange(_) => "C4",
            ConfigRefusal::BadAddress(..) => "C5",
            ConfigRefusal::Doubled(_) => "C6",
            ConfigRefusal::NoListener => "C7",
            ConfigRefusal::BadPid => "C8",
            ConfigRefusal::BadCommand => "C9",
            ConfigRefusal::Mixed => "C10",
            ConfigRefusal::Group(..) => "C11",
            ConfigRefusal::BadService => "C12",
            ConfigRefusal::BadSockets => "C13",
            ConfigRefusal::NoSuchListener => "C14",
            ConfigRefusal::Socket(..) => "C15",
            ConfigRefusal::Unreadable => "file",
            ConfigRefusal::Memory => "memory",
        }
    }
}

/// Printed as its code, with what it is about.
impl fmt::Display for ConfigRefusal {
    ghost use Rattle.std.specs.Prelude.{Some};
    ghost use Rattle.master_config.specs.Codes.{config_text};

    ghost output = { λ refusal. Some (config_text refusal) };

    fn fmt<W: fmt::Write>(&self, f: &mut fmt::Formatter<W>) -> fmt::Result {
        let code = self.code();
        match self {
            ConfigRefusal::WrongKind(key) => write!(f, "{code} {key}"),
            ConfigRefusal::OutOfRange(key) => write!(f, "{code} {key}"),
            ConfigRefusal::BadAddress(index, refusal) => {
                write!(f, "{code} {index} {}", refusal.code())
            }
            ConfigRefusal::Doubled(index) => write!(f, "{code} {index}"),
            ConfigRefusal::Group(index, fault) => write!(f, "{code} {index} {fault}"),
            ConfigRefusal::Socket(index, fault) => write!(f, "{code} {index} {fault}"),
            _ => f.write_str(code),
        }
    }
}

impl Error for ConfigRefusal {}

impl From<AllocError> for ConfigRefusal {
    ghost use Rattle.master_config.specs.declared.refusal.ConfigRefusal.TheVariants.{Memory};

    ghost from_gives = { λ _ refusal. refusal ≡ Memory };

    fn from(_refused: AllocError) -> ConfigRefusal {
        ConfigRefusal::Memory
    }
}
