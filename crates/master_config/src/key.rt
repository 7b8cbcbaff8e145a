//! The keys of a configuration.
ghost use Rattle.std.specs.Prelude.{◌≡◌};
ghost use Rattle.master_config.specs.Names.{is_known, is_of_group};

use std::fmt;

/// A key of a configuration.
#[derive(Clone, Copy, Debug, PartialEq, Eq)]
pub enum Key {
    Command,
    Groups,
    Listeners,
    Pid,
    Retries,
    Service,
    Sockets,
    Surge,
    Timeout,
    Workers,
}

impl Key {
    ghost use Rattle.master_config.specs.KeyNames.{key_name};

    /// The key as it is written in a configuration.
    pub fn name(self) -> &'static str
        ensures { result.now ≡ key_name self }
    {
        match self {
            Key::Command => "command",
            Key::Groups => "groups",
            Key::Listeners => "listeners",
            Key::Pid => "pid",
            Key::Retries => "retries",
            Key::Service => "service",
            Key::Sockets => "sockets",
            Key::Surge => "surge",
            Key::Timeout => "timeout",
            Key::Workers => "workers",
        }
    }
}

impl fmt::Display for Key {
    ghost use Rattle.std.specs.Prelude.{Some};
    ghost use Rattle.master_config.specs.KeyNames.{key_name};

    ghost output = { λ k. Some (key_name k) };

    fn fmt<W: fmt::Write>(&self, f: &mut fmt::Formatter<W>) -> fmt::Result {
        write!(f, "{}", self.name())
    }
}

/// Whether a configuration has such a key.
pub(crate) fn is_known(name: &str) -> bool
    ensures { result ≡ is_known name.now }
{
    name == "command"
        || name == "groups"
        || name == "listeners"
        || name == "pid"
        || name == "retries"
        || name == "service"
        || name == "sockets"
        || name == "surge"
        || name == "timeout"
        || name == "workers"
}

/// Whether a group of a configuration has such a key.
pub(crate) fn is_of_group(name: &str) -> bool
    ensures { result ≡ is_of_group name.now }
{
    name == "listeners" || name == "workers"
}
