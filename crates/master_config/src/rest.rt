//! What a configuration says of all groups alike.
ghost use Rattle.std.specs.Prelude.{◌≡◌, IfOk};
ghost use Rattle.vocabulary.specs.Settings.{HasSuffixRoom};
ghost use Rattle.toml.specs.View.{view, table_view};
ghost use Rattle.toml.specs.Data.{as_str};
ghost use Rattle.master_config.specs.Values.{value_at};
ghost use Rattle.master_config.specs.Configuration.{pid_read, pid_at, rest_of};

use crate::values::{number_at, value_at};
use crate::{ConfigRefusal, Key};
use listener_set::FilePath;
use std::marker::Model;
use toml::value::{Table, Value};

/// What a configuration says of all groups alike, each value within its range.
#[derive(Drop)]
pub struct Rest {
    /// The pid file.
    pub pid: Option<FilePath>,
    /// How many rounds of starts a plan makes before it gives up.
    pub retries: u32,
    /// How many new workers a step of a reload starts; 0 is all at once.
    pub surge: u32,
    /// After how many seconds without a beat a worker is overdue.
    pub timeout: u32,
}

impl Model for Rest {
    ghost use Rattle.std.specs.Prelude.{◌≤◌};
    ghost use Rattle.vocabulary.specs.Settings.{HasSuffixRoom};
    ghost use Rattle.master_config.specs.Configuration.{Rest as Read};

    ghost Value = { Read };

    ghost view = { λ r. record { pid = r.pid; retries = r.retries; surge = r.surge; timeout = r.timeout } };

    ghost invariant = { λ r. HasSuffixRoom r.pid × (r.retries ≤ 8) × (r.surge ≤ 1024) × (1 ≤ r.timeout) × (r.timeout ≤ 86400) };
}

fn pid_in(value: &Value) -> Result<Option<FilePath>, ConfigRefusal>
    ensures pid { result ≡ pid_read (as_str (view value.now)) }
    ensures room { IfOk result HasSuffixRoom }
{
    match value.as_str() {
        None => Err(ConfigRefusal::WrongKind(Key::Pid)),
        Some(text) => match FilePath::read(text.as_bytes()) {
            Ok(path) => Ok(Some(path)),
            Err(_) => Err(ConfigRefusal::BadPid),
        },
    }
}

fn pid_at(table: &Table) -> Result<Option<FilePath>, ConfigRefusal>
    ensures pid { result ≡ pid_at (value_at Key.Pid (table_view table.now)) }
    ensures room { IfOk result HasSuffixRoom }
{
    match value_at(table, Key::Pid) {
        None => Ok(None),
        Some(value) => pid_in(value),
    }
}

/// What a table says of all groups alike.
pub fn rest_of(table: &Table) -> Result<Rest, ConfigRefusal>
    ensures { result ≡ rest_of (table_view table.now) }
{
    let pid = pid_at(table)?;
    let retries = number_at(table, Key::Retries, 0, 8, 3)?;
    let surge = number_at(table, Key::Surge, 0, 1024, 0)?;
    let timeout = number_at(table, Key::Timeout, 1, 86400, 60)?;
    Ok(Rest {
        pid,
        retries,
        surge,
        timeout,
    })
}
