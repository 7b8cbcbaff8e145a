//! The groups of a configuration.
ghost use Rattle.std.specs.Prelude.{◌≡◌, ◌+◌, ◌<◌, ◌≤◌, length, vec_len, Ok, Err, OnOk, IfOk, IfErr};
ghost use Rattle.std.specs.List.{list_all};
ghost use Rattle.toml.specs.View.{view, table_view, array_view};
ghost use Rattle.master_config.specs.Values.{data_of, result_map};
ghost use Rattle.master_config.specs.Groups.{told_of, group_read, group_values, group_in, groups_after, groups_read, no_pools, is_table, tables_read, is_mixed, pools_in};

use crate::listening::listeners_behind;
use crate::pools::Pools;
use crate::values::{has_only_of_group, number_at, value_at};
use crate::{ConfigRefusal, GroupFault, Key};
use toml::value::{Array, Table, Value};
use worker_groups::MOST_GROUPS;

fn add_values(pools: &mut Pools, table: &Table) -> Result<(), ConfigRefusal>
    requires { length pools.old.groups < MOST_GROUPS }
    ensures ok { OnOk result (group_values pools.old (table_view table.now) ≡ Ok pools.new) }
    ensures grown { OnOk result (length pools.new.groups ≡ length pools.old.groups + 1) }
    ensures err { IfErr result (λ why. group_values pools.old (table_view table.now) ≡ Err why) }
{
    let listeners = listeners_behind(pools.listeners(), table)?;
    let workers = number_at(table, Key::Workers, 0, 1024, 1)?;
    pools.add(&listeners, workers)
}

/// Puts the group of a table behind the others.
fn add_read(pools: &mut Pools, table: &Table) -> Result<(), ConfigRefusal>
    requires { length pools.old.groups < MOST_GROUPS }
    ensures ok { OnOk result (group_read pools.old (table_view table.now) ≡ Ok pools.new) }
    ensures grown { OnOk result (length pools.new.groups ≡ length pools.old.groups + 1) }
    ensures err { IfErr result (λ why. group_read pools.old (table_view table.now) ≡ Err why) }
{
    if !has_only_of_group(table) {
        return Err(ConfigRefusal::UnknownKey);
    }
    add_values(pools, table)
}

/// A rule of the configuration that the group at an index breaks.
fn told_of(index: usize, refusal: ConfigRefusal) -> ConfigRefusal
    ensures { result ≡ told_of index refusal }
{
    let fault = match refusal {
        ConfigRefusal::UnknownKey => GroupFault::UnknownKey,
        ConfigRefusal::WrongKind(key) => GroupFault::WrongKind(key),
        ConfigRefusal::OutOfRange(key) => GroupFault::OutOfRange(key),
        ConfigRefusal::BadAddress(place, refusal) => GroupFault::BadAddress(place, refusal),
        ConfigRefusal::Doubled(place) => GroupFault::Doubled(place),
        ConfigRefusal::NoListener => GroupFault::NoListener,
        other => return other,
    };
    ConfigRefusal::Group(index, fault)
}

/// Puts the group of a value behind the others. The index is the value's.
fn add(pools: &mut Pools, index: usize, value: &Value) -> Result<(), ConfigRefusal>
    requires { length pools.old.groups < MOST_GROUPS }
    ensures ok { OnOk result (group_in index pools.old (view value.now) ≡ Ok pools.new) }
    ensures grown { OnOk result (length pools.new.groups ≡ length pools.old.groups + 1) }
    ensures err { IfErr result (λ why. group_in index pools.old (view value.now) ≡ Err why) }
{
    let Some(table) = value.as_table() else {
        return Err(ConfigRefusal::WrongKind(Key::Groups));
    };
    match add_read(pools, table) {
        Ok(()) => Ok(()),
        Err(refusal) => Err(told_of(index, refusal)),
    }
}

fn read_all(items: &Array) -> Result<Pools, ConfigRefusal>
    requires { vec_len items.now ≤ MOST_GROUPS }
    ensures pools { result ≡ groups_after no_pools 0 (data_of (array_view items.now)) }
    ensures count { IfOk result (λ pools. length pools.groups ≡ vec_len items.now) }
{
    let mut pools = Pools::new();
    for (index, item) in items.iter().enumerate() {
        add(&mut pools, index, item)?;
    }
    Ok(pools)
}

fn are_tables(items: &Array) -> bool
    ensures { result ≡ list_all is_table (data_of (array_view items.now)) }
{
    items.iter().all(|item| item.is_table())
}

fn tables_in(value: &Value) -> Result<&Array, ConfigRefusal>
    ensures { result_map (λ a. array_view a.now) result ≡ tables_read (view value.now) }
{
    match value.as_array() {
        Some(items) if are_tables(items) => Ok(items),
        _ => Err(ConfigRefusal::WrongKind(Key::Groups)),
    }
}

/// Whether listeners or workers stand beside the groups of a table.
fn is_mixed(table: &Table) -> bool
    ensures { result ≡ is_mixed (table_view table.now) }
{
    value_at(table, Key::Listeners).is_some() || value_at(table, Key::Workers).is_some()
}

/// The groups of a value of a table, at least one.
pub fn pools_in(table: &Table, value: &Value) -> Result<Pools, ConfigRefusal>
    ensures pools { result ≡ pools_in (table_view table.now) (view value.now) }
    ensures some { IfOk result (λ pools. 1 ≤ length pools.groups) }
{
    let items = tables_in(value)?;
    if is_mixed(table) {
        return Err(ConfigRefusal::Mixed);
    }
    if items.is_empty() {
        return Err(ConfigRefusal::OutOfRange(Key::Groups));
    }
    if items.len() > MOST_GROUPS {
        return Err(ConfigRefusal::OutOfRange(Key::Groups));
    }
    read_all(items)
}
