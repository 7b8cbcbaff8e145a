//! The values of a table, by their kinds.
ghost use Rattle.std.specs.Prelude.{◌≡◌, ◌≤◌, IfOk, option_map};
ghost use Rattle.std.specs.List.{list_all};
ghost use Rattle.toml.specs.Data.{as_integer};
ghost use Rattle.toml.specs.View.{view, table_view, array_view};
ghost use Rattle.master_config.specs.Names.{is_known, is_of_group};
ghost use Rattle.master_config.specs.Values.{value_at, number_read, number_at, is_text, text_of, data_of, texts_read, result_map, has_only};

use crate::{ConfigRefusal, Key, key};
use toml::value::{Array, Table, Value};

/// The value at a key.
pub fn value_at(table: &Table, key: Key) -> Option<&Value>
    ensures { option_map (λ v. view v.now) result ≡ value_at key (table_view table.now) }
{
    table.get(key.name())
}

/// Whether each key is one of a group's.
pub fn has_only_of_group(table: &Table) -> bool
    ensures { result ≡ has_only is_of_group (table_view table.now) }
{
    table.keys().all(|name| key::is_of_group(name.as_str()))
}

/// Whether each key is one of a configuration's.
pub fn has_only_known(table: &Table) -> bool
    ensures { result ≡ has_only is_known (table_view table.now) }
{
    table.keys().all(|name| key::is_known(name.as_str()))
}

fn number_in(value: &Value, key: Key, least: u32, most: u32) -> Result<u32, ConfigRefusal>
    ensures number { result ≡ number_read key least most (as_integer (view value.now)) }
    ensures within { IfOk result (λ n. (least ≤ n) × (n ≤ most)) }
{
    match value.as_integer() {
        None => Err(ConfigRefusal::WrongKind(key)),
        Some(number) => {
            if i64::from(least) <= number && number <= i64::from(most) {
                Ok(number as u32)
            } else {
                Err(ConfigRefusal::OutOfRange(key))
            }
        }
    }
}

/// The number at a key, from `least` to `most`, or the default where the key is missing.
pub fn number_at(
    table: &Table,
    key: Key,
    least: u32,
    most: u32,
    default: u32,
) -> Result<u32, ConfigRefusal>
    requires { (least ≤ default) × (default ≤ most) }
    ensures number { result ≡ number_at key least most default (value_at key (table_view table.now)) }
    ensures within { IfOk result (λ n. (least ≤ n) × (n ≤ most)) }
{
    match value_at(table, key) {
        None => Ok(default),
        Some(value) => number_in(value, key, least, most),
    }
}

/// The text of a value, or the empty one where it is none.
pub fn text_of(value: &Value) -> &str
    ensures { result.now ≡ text_of (view value.now) }
{
    match value.as_str() {
        Some(text) => text,
        None => "",
    }
}

fn are_texts(items: &Array) -> bool
    ensures { result ≡ list_all is_text (data_of (array_view items.now)) }
{
    items.iter().all(|item| item.is_str())
}

/// The list of texts of a value.
pub fn texts_in(value: &Value, key: Key) -> Result<&Array, ConfigRefusal>
    ensures { result_map (λ a. array_view a.now) result ≡ texts_read key (view value.now) }
{
    match value.as_array() {
        Some(items) if are_texts(items) => Ok(items),
        _ => Err(ConfigRefusal::WrongKind(key)),
    }
}
