//! The command of a configuration.
ghost use Rattle.std.specs.Prelude.{◌≡◌, [], map, IfOk, string_bytes, option_map};
ghost use Rattle.std.specs.List.{list_all};
ghost use Rattle.std.specs.Option.{option_map_or};
ghost use Rattle.toml.specs.View.{view, table_view, array_view};
ghost use Rattle.master_config.specs.Values.{value_at, texts_of, result_map};
ghost use Rattle.master_config.specs.Arguments.{is_argument};
ghost use Rattle.master_config.specs.Configuration.{is_command, command_in, command_at};

use crate::values::{text_of, texts_in, value_at};
use crate::{ConfigRefusal, Key};
use std::alloc::{AllocError, Global};
use toml::value::{Array, Table, Value};

/// The most texts of a command, and the most bytes of each.
const MOST_ARGUMENTS: usize = 16;

const ARGUMENT_BYTES: usize = 255;

/// Whether a text has 1 to 255 bytes, none of them 0.
pub(crate) fn is_argument(text: &[u8]) -> bool
    ensures { result ≡ is_argument text.now }
{
    !text.is_empty() && text.len() <= ARGUMENT_BYTES && !text.contains(&0)
}

fn are_arguments(items: &Array) -> bool
    ensures { result ≡ list_all is_argument (texts_of (array_view items.now)) }
{
    items
        .iter()
        .all(|item| is_argument(text_of(item).as_bytes()))
}

fn is_command(items: &Array) -> bool
    ensures { result ≡ is_command (texts_of (array_view items.now)) }
{
    if items.is_empty() {
        return false;
    }
    items.len() <= MOST_ARGUMENTS && are_arguments(items)
}

fn command_in(value: &Value) -> Result<&Array, ConfigRefusal>
    ensures { result_map (λ a. texts_of (array_view a.now)) result ≡ command_in (view value.now) }
{
    let items = texts_in(value, Key::Command)?;
    if !is_command(items) {
        return Err(ConfigRefusal::BadCommand);
    }
    Ok(items)
}

/// The texts of a table's command, if it has one.
pub fn command_at(table: &Table) -> Result<Option<&Array>, ConfigRefusal>
    ensures { result_map (λ o. option_map_or (λ a. texts_of (array_view a.now)) o []) result
        ≡ command_at (value_at Key.Command (table_view table.now)) }
{
    match value_at(table, Key::Command) {
        None => Ok(None),
        Some(value) => Ok(Some(command_in(value)?)),
    }
}

/// Copies of the texts.
pub fn copied(alloc: Global, items: &Array) -> Result<Vec<String>, AllocError>
    ensures { IfOk result (λ v. map string_bytes v.items ≡ texts_of (array_view items.now)) }
{
    let mut texts = Vec::new(alloc);
    for item in items {
        texts.push(String::from_str(alloc, text_of(item))?)?;
    }
    Ok(texts)
}
