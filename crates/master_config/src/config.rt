//! The configuration of a text.
ghost use Rattle.std.specs.Prelude.{◌≡◌, ◌≢◌, ◌↔◌, ◌⊎◌, IfErr, Err};
ghost use Rattle.toml.specs.View.{table_view};
ghost use Rattle.toml.specs.Errors.{IsMemory};
ghost use Rattle.master_config.specs.Values.{value_at};
ghost use Rattle.master_config.specs.Configuration.{settings_at, is_service, configuration_of, Reads};

use crate::command::{command_at, copied};
use crate::groups::pools_in;
use crate::listening::listeners_at;
use crate::pools::Pools;
use crate::rest::rest_of;
use crate::sockets::check_sockets;
use crate::values::{has_only_known, number_at, value_at};
use crate::{ConfigRefusal, Key};
use std::alloc::Global;
use std::marker::Model;
use toml::de::Error;
use toml::value::Table;
use vocabulary::Settings;

/// What a configuration says.
#[derive(Debug, Drop)]
pub struct Config {
    /// The settings.
    pub settings: Settings,
    /// The program that is started as a worker with its arguments, or no text where none is named.
    pub command: Vec<String>,
}

impl Model for Config {
    ghost use Rattle.std.specs.Prelude.{map, string_bytes};
    ghost use Rattle.master_config.specs.Configuration.{Configuration};

    ghost Value = { Configuration };

    ghost view = { λ c. record { settings = c.settings; command = map string_bytes c.command.items } };
}

/// The settings of a table: those of its groups, or of one group where it names none.
fn settings_in(table: &Table) -> Result<Settings, ConfigRefusal>
    ensures { result ≡ settings_at (value_at Key.Groups (table_view table.now)) (table_view table.now) }
{
    match value_at(table, Key::Groups) {
        None => {
            let listeners = listeners_at(table)?;
            let rest = rest_of(table)?;
            let workers = number_at(table, Key::Workers, 0, 1024, 1)?;
            Ok(Pools::one(&listeners, workers).settings(&rest))
        }
        Some(value) => {
            let pools = pools_in(table, value)?;
            let rest = rest_of(table)?;
            Ok(pools.settings(&rest))
        }
    }
}

/// Whether what a table has for the service is a table, or is missing.
fn is_service(table: &Table) -> bool
    ensures { result ≡ is_service (value_at Key.Service (table_view table.now)) }
{
    match value_at(table, Key::Service) {
        None => true,
        Some(value) => value.is_table(),
    }
}

/// What a table says. Want of memory is told only where no rule is broken.
fn config_in(alloc: Global, table: &Table) -> Result<Config, ConfigRefusal>
    ensures exact { result ≢ Err ConfigRefusal.Memory → result ≡ configuration_of (table_view table.now) }
    ensures due { IfErr (configuration_of (table_view table.now)) (λ why. result ≡ Err why) }
{
    if !has_only_known(table) {
        return Err(ConfigRefusal::UnknownKey);
    }
    let items = command_at(table)?;
    let settings = settings_in(table)?;
    if !is_service(table) {
        return Err(ConfigRefusal::BadService);
    }
    check_sockets(table, &settings.listeners)?;
    let command = match items {
        Some(items) => copied(alloc, items)?,
        None => Vec::new(alloc),
    };
    Ok(Config { settings, command })
}

/// Why a text that has no table is no configuration: memory was refused, or it is not TOML.
fn unread(error: &Error) -> ConfigRefusal
    ensures memory { (result ≡ ConfigRefusal.Memory) ↔ IsMemory error.now }
    ensures only { (result ≡ ConfigRefusal.Memory) ⊎ (result ≡ ConfigRefusal.NotToml) }
{
    if error.is_memory() {
        ConfigRefusal::Memory
    } else {
        ConfigRefusal::NotToml
    }
}

/// Reads a configuration. A text that is not TOML is refused as such, in bytes that are no UTF-8 too; then come a key
/// that is not known, and each key's rules in the order of the crate's page. A key that is missing has its default:
/// the listener 0.0.0.0:8080, one worker, a timeout of 60 seconds, three retries, no pid file and no command; without
/// groups all listeners and workers are one group.
pub fn read(alloc: Global, text: &[u8]) -> Result<Config, ConfigRefusal>
    ensures { Reads text.now result }
{
    match toml::table_from_slice(alloc, text) {
        Ok(table) => config_in(alloc, &table),
        Err(error) => Err(unread(&error)),
    }
}
