//! The configuration of a file.
ghost use Rattle.std.specs.Prelude.{◌≡◌, IfOk, IfErr, option_map};
ghost use Rattle.std.specs.IoError.{error_kind};
ghost use Rattle.master_config.specs.Files.{AreNamed, IsNamed, IsOfKind, IsRefusalOf, IsUnread};

use crate::{Config, ConfigRefusal, read};
use std::alloc::Global;
use std::io::ErrorKind;
use std::rt::Files;
use std::{fs, io};
use vocabulary::Settings;

impl Config {
    ghost use Rattle.master_config.specs.Files.{plain_configuration};

    /// The defaults of all keys.
    pub fn plain(alloc: Global) -> Config
        ensures { result ≡ plain_configuration }
    {
        Config {
            settings: Settings::plain(),
            command: Vec::new(alloc),
        }
    }
}

/// The bytes of a file.
pub fn text_in<R: AllocGlobal + Files>(rt: &R, path: &str) -> Result<Vec<u8>, ConfigRefusal>
    ensures { IfErr result IsUnread }
{
    Ok(fs::read(rt, path)?)
}

/// The configuration of a file, or the defaults where none is named.
pub fn config_in<R: AllocGlobal + Files>(
    rt: &R,
    path: Option<&str>,
) -> Result<Config, ConfigRefusal>
    ensures ok { IfOk result (IsNamed (option_map (λ text. text.now) path.entry)) }
    ensures err { IfErr result (IsRefusalOf (option_map (λ text. text.now) path.entry)) }
{
    match path {
        Some(path) => {
            let text = text_in(rt, path)?;
            read(rt.alloc(), text.as_slice())
        }
        None => Ok(Config::plain(rt.alloc())),
    }
}

/// The settings of a file, or others where none is named.
pub fn settings_in<R: AllocGlobal + Files>(
    rt: &R,
    path: Option<&str>,
    without: Settings,
) -> Result<Settings, ConfigRefusal>
    ensures ok { IfOk result (AreNamed (option_map (λ text. text.now) path.entry) without) }
    ensures err { IfErr result (IsRefusalOf (option_map (λ text. text.now) path.entry)) }
{
    match path {
        Some(_) => Ok(config_in(rt, path)?.settings),
        None => Ok(without),
    }
}

/// Each failed read comes through here. Want of memory is asked for first, since it comes as an error of input too.
impl From<io::Error> for ConfigRefusal {
    ghost from_gives = { λ error refusal. IsOfKind (error_kind error) refusal };

    fn from(error: io::Error) -> ConfigRefusal {
        match error.kind() {
            ErrorKind::OutOfMemory => ConfigRefusal::Memory,
            _ => ConfigRefusal::Unreadable,
        }
    }
}
