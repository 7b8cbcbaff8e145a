//! The options of a socket.
ghost use Rattle.std.specs.Prelude.{◌≡◌};
ghost use Rattle.master_config.specs.Names.{is_of_path, is_of_port};

use std::fmt;

/// An option of a socket.
#[derive(Clone, Copy, Debug, PartialEq, Eq)]
pub enum SocketKey {
    Backlog,
    DeferAccept,
    Group,
    Mode,
    Owner,
}

impl SocketKey {
    ghost use Rattle.master_config.specs.KeyNames.{socket_key_name};

    /// The key as it is written in a configuration.
    pub fn name(self) -> &'static str
        ensures { result.now ≡ socket_key_name self }
    {
        match self {
            SocketKey::Backlog => "backlog",
            SocketKey::DeferAccept => "defer_accept",
            SocketKey::Group => "group",
            SocketKey::Mode => "mode",
            SocketKey::Owner => "owner",
        }
    }
}

impl fmt::Display for SocketKey {
    ghost use Rattle.std.specs.Prelude.{Some};
    ghost use Rattle.master_config.specs.KeyNames.{socket_key_name};

    ghost output = { λ k. Some (socket_key_name k) };

    fn fmt<W: fmt::Write>(&self, f: &mut fmt::Formatter<W>) -> fmt::Result {
        write!(f, "{}", self.name())
    }
}

/// Whether a socket that is a file has an option of this name.
pub fn is_option_of_path(name: &str) -> bool
    ensures { result ≡ is_of_path name.now }
{
    name == "backlog" || name == "group" || name == "mode" || name == "owner"
}

/// Whether a socket with a port has an option of this name.
pub fn is_option_of_port(name: &str) -> bool
    ensures { result ≡ is_of_port name.now }
{
    name == "backlog" || name == "defer_accept"
}
