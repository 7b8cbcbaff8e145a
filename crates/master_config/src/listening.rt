//! The listeners of a configuration.
ghost use Rattle.std.specs.Prelude.{◌≡◌, ◌+◌, ◌<◌, ◌≤◌, length, Ok, Err, OnOk, IfOk, IfErr, vec_len};
ghost use Rattle.toml.specs.View.{view, table_view, array_view};
ghost use Rattle.master_config.specs.Values.{value_at, texts_of};
ghost use Rattle.master_config.specs.Listening.{listener_read, listeners_after, listeners_in, listeners_at, listeners_behind};

use crate::values::{text_of, texts_in, value_at};
use crate::{ConfigRefusal, Key};
use listener_set::{Address, ListenerSet, MOST_LISTENERS};
use toml::value::{Array, Table, Value};
use vocabulary::Settings;

/// Puts the address of a text at the end. The index is the text's.
fn add(listeners: &mut ListenerSet, index: usize, text: &[u8]) -> Result<(), ConfigRefusal>
    requires { length listeners.old < MOST_LISTENERS }
    ensures ok { OnOk result (listener_read index listeners.old text.now ≡ Ok listeners.new) }
    ensures err { IfErr result (λ e. listener_read index listeners.old text.now ≡ Err e) }
{
    let address = match Address::read(text) {
        Ok(address) => address,
        Err(refusal) => return Err(ConfigRefusal::BadAddress(index, refusal)),
    };
    if listeners.holds(&address) {
        return Err(ConfigRefusal::Doubled(index));
    }
    match listeners.add(&address) {
        Ok(()) => Ok(()),
        Err(_) => unreachable!(),
    }
}

fn read_all(before: &ListenerSet, items: &Array) -> Result<ListenerSet, ConfigRefusal>
    requires { length before.now + vec_len items.now ≤ MOST_LISTENERS }
    ensures { result ≡ listeners_after before.now 0 (texts_of (array_view items.now)) }
{
    let mut listeners = *before;
    for (index, item) in items.iter().enumerate() {
        add(&mut listeners, index, text_of(item).as_bytes())?;
    }
    Ok(listeners)
}

/// The listeners with those of a value at their end, at least one.
fn listeners_in(before: &ListenerSet, value: &Value) -> Result<ListenerSet, ConfigRefusal>
    ensures listeners { result ≡ listeners_in before.now (view value.now) }
    ensures some { IfOk result (λ listeners. length before.now < length listeners) }
{
    let items = texts_in(value, Key::Listeners)?;
    if items.is_empty() {
        return Err(ConfigRefusal::NoListener);
    }
    if items.len() > MOST_LISTENERS - before.len() {
        return Err(ConfigRefusal::OutOfRange(Key::Listeners));
    }
    read_all(before, items)
}

/// The listeners of a table, or 0.0.0.0:8080 where it names none.
pub fn listeners_at(table: &Table) -> Result<ListenerSet, ConfigRefusal>
    ensures listeners { result ≡ listeners_at (value_at Key.Listeners (table_view table.now)) }
    ensures some { IfOk result (λ listeners. 1 ≤ length listeners) }
{
    match value_at(table, Key::Listeners) {
        None => Ok(Settings::plain().listeners),
        Some(value) => listeners_in(&ListenerSet::new(), value),
    }
}

/// The listeners with those of a group's table at their end.
pub fn listeners_behind(before: &ListenerSet, table: &Table) -> Result<ListenerSet, ConfigRefusal>
    ensures listeners { result ≡ listeners_behind before.now (value_at Key.Listeners (table_view table.now)) }
    ensures some { IfOk result (λ listeners. length before.now < length listeners) }
{
    match value_at(table, Key::Listeners) {
        None => Err(ConfigRefusal::NoListener),
        Some(value) => listeners_in(before, value),
    }
}
