//! The options of the sockets of a configuration. A master does not use them: they are read so that a wrong one is refused.
ghost use Rattle.std.specs.Prelude.{◌≡◌, option_map};
ghost use Rattle.std.specs.List.{list_all};
ghost use Rattle.toml.specs.Data.{as_bool, as_integer, as_str, as_table, get_member};
ghost use Rattle.toml.specs.View.{view, table_view};
ghost use Rattle.master_config.specs.Addresses.{is_path};
ghost use Rattle.master_config.specs.Names.{is_of_path, is_of_port, is_of_socket};
ghost use Rattle.master_config.specs.Values.{value_at, has_only};
ghost use Rattle.master_config.specs.Sockets.{is_octal, has_mode_length, is_mode, is_mode_text, is_backlog, is_name, fits, option_at, option_check, values_check, options_check, socket_check, sockets_after, is_listener, sockets_in, sockets_at};

use crate::command::is_argument;
use crate::values::value_at;
use crate::{ConfigRefusal, Key, SocketFault, SocketKey, is_option_of_path, is_option_of_port};
use listener_set::{Address, ListenerSet};
use toml::value::{Table, Value};

/// The most connections of a backlog.
const MOST_BACKLOG: i64 = 65535;

fn is_octal(digit: u8) -> bool
    ensures { result ≡ is_octal digit }
{
    b'0' <= digit && digit <= b'7'
}

/// Whether a text is three octal digits, or a zero and three.
fn is_mode(text: &[u8]) -> bool
    ensures { result ≡ is_mode text.now }
{
    are_octal(text) && has_mode_length(text)
}

fn are_octal(text: &[u8]) -> bool
    ensures { result ≡ list_all is_octal text.now }
{
    text.iter().all(|digit| is_octal(*digit))
}

/// Whether a text has three digits, or four of which the first is a zero.
fn has_mode_length(text: &[u8]) -> bool
    ensures { result ≡ has_mode_length text.now }
{
    match text {
        [first, _, _, _] => *first == b'0',
        _ => text.len() == 3,
    }
}

fn is_mode_text(value: &Value) -> bool
    ensures { result ≡ is_mode_text (as_str (view value.now)) }
{
    match value.as_str() {
        None => false,
        Some(text) => is_mode(text.as_bytes()),
    }
}

fn is_backlog(value: &Value) -> bool
    ensures { result ≡ is_backlog (as_integer (view value.now)) }
{
    match value.as_integer() {
        None => false,
        Some(number) => 1 <= number && number <= MOST_BACKLOG,
    }
}

fn is_name(value: &Value) -> bool
    ensures { result ≡ is_name (as_str (view value.now)) }
{
    match value.as_str() {
        None => false,
        Some(text) => is_argument(text.as_bytes()),
    }
}

/// Whether a value is of the key's kind, and in its range.
fn fits(value: &Value, key: SocketKey) -> bool
    ensures { result ≡ fits key (view value.now) }
{
    match key {
        SocketKey::Backlog => is_backlog(value),
        SocketKey::DeferAccept => value.is_bool(),
        SocketKey::Mode => is_mode_text(value),
        SocketKey::Group | SocketKey::Owner => is_name(value),
    }
}

fn option_at(options: &Table, key: SocketKey) -> Option<&Value>
    ensures { option_map (λ v. view v.now) result ≡ option_at key (table_view options.now) }
{
    options.get(key.name())
}

fn check_option(options: &Table, key: SocketKey) -> Result<(), SocketFault>
    ensures { result ≡ option_check key (option_at key (table_view options.now)) }
{
    match option_at(options, key) {
        Some(value) if !fits(value, key) => Err(SocketFault::BadValue(key)),
        _ => Ok(()),
    }
}

fn check_values(options: &Table) -> Result<(), SocketFault>
    ensures { result ≡ values_check (table_view options.now) }
{
    check_option(options, SocketKey::Backlog)?;
    check_option(options, SocketKey::DeferAccept)?;
    check_option(options, SocketKey::Group)?;
    check_option(options, SocketKey::Mode)?;
    check_option(options, SocketKey::Owner)
}

/// Whether an address is the path of a file.
fn is_path(address: &Address) -> bool
    ensures { result ≡ is_path address.now }
{
    matches!(address.bytes(), [b'/', ..])
}

/// Whether each key is one of the socket at an address.
fn has_only_of_socket(options: &Table, address: &Address) -> bool
    ensures { result ≡ has_only (is_of_socket address.now) (table_view options.now) }
{
    if is_path(address) {
        has_only_of_path(options)
    } else {
        has_only_of_port(options)
    }
}

fn has_only_of_path(options: &Table) -> bool
    ensures { result ≡ has_only is_of_path (table_view options.now) }
{
    options.keys().all(|name| is_option_of_path(name.as_str()))
}

fn has_only_of_port(options: &Table) -> bool
    ensures { result ≡ has_only is_of_port (table_view options.now) }
{
    options.keys().all(|name| is_option_of_port(name.as_str()))
}

fn check_options(address: &Address, value: &Value) -> Result<(), SocketFault>
    ensures { result ≡ options_check address.now (as_table (view value.now)) }
{
    let Some(options) = value.as_table() else {
        return Err(SocketFault::NotTable);
    };
    if !has_only_of_socket(options, address) {
        return Err(SocketFault::UnknownKey);
    }
    check_values(options)
}

/// What a table has for an address.
fn options_of<'a>(sockets: &'a Table, address: &Address) -> Option<&'a Value>
    ensures { option_map (λ v. view v.now) result ≡ get_member address.now (table_view sockets.now) }
{
    match str::from_utf8(address.bytes()) {
        Ok(text) => sockets.get(text),
        Err(_) => unreachable!(),
    }
}

/// Checks the options of the listener at an index, if it has some.
fn check_socket(sockets: &Table, index: usize, address: &Address) -> Result<(), ConfigRefusal>
    ensures { result ≡ socket_check index address.now (get_member address.now (table_view sockets.now)) }
{
    let Some(value) = options_of(sockets, address) else {
        return Ok(());
    };
    match check_options(address, value) {
        Ok(()) => Ok(()),
        Err(fault) => Err(ConfigRefusal::Socket(index, fault)),
    }
}

fn check_all(sockets: &Table, listeners: &ListenerSet) -> Result<(), ConfigRefusal>
    ensures { result ≡ sockets_after (table_view sockets.now) 0 listeners.now }
{
    let all = listeners.as_slice();
    for (index, address) in all.iter().enumerate() {
        check_socket(sockets, index, address)?;
    }
    Ok(())
}

/// Whether a text is the address of a listener.
fn is_listener(listeners: &ListenerSet, text: &str) -> bool
    ensures { result ≡ is_listener listeners.now text.now }
{
    match Address::read(text.as_bytes()) {
        Ok(address) => listeners.holds(&address),
        Err(_) => false,
    }
}

/// Whether each key is the address of a listener.
fn has_only_listeners(sockets: &Table, listeners: &ListenerSet) -> bool
    ensures { result ≡ has_only (is_listener listeners.now) (table_view sockets.now) }
{
    sockets
        .keys()
        .all(|name| is_listener(listeners, name.as_str()))
}

fn check_in(value: &Value, listeners: &ListenerSet) -> Result<(), ConfigRefusal>
    ensures { result ≡ sockets_in listeners.now (as_table (view value.now)) }
{
    let Some(sockets) = value.as_table() else {
        return Err(ConfigRefusal::BadSockets);
    };
    if !has_only_listeners(sockets, listeners) {
        return Err(ConfigRefusal::NoSuchListener);
    }
    check_all(sockets, listeners)
}

/// Checks the options of the sockets of a table, which listens at these addresses.
pub fn check_sockets(table: &Table, listeners: &ListenerSet) -> Result<(), ConfigRefusal>
    ensures { result ≡ sockets_at listeners.now (value_at Key.Sockets (table_view table.now)) }
{
    match value_at(table, Key::Sockets) {
        None => Ok(()),
        Some(value) => check_in(value, listeners),
    }
}
