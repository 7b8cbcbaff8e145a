//! Addresses in other spellings, and how each is written; and where the options of a socket are refused.
#![tactic(auto)]

mod sockets;

use listener_set::Address;
use master_config::{ConfigRefusal, GroupFault};
pub use sockets::{line_of_socket, tell_socket};
use std::alloc::Global;
use std::fmt::InlineText;
use std::io::Write;
use std::net::SocketAddrV6;
use std::str::FromStr;
use toml::Table;

/// The most bytes of a spelling: as many as an address has.
const MOST: usize = 107;

/// Says how an address is written that a text means in another spelling: a name of this machine, all addresses of it, a
/// path or an address as other programs write it, or an IPv6 address with capitals, more zeros or a mapped IPv4 address.
/// Nothing is said where no address is meant, or the text is one.
pub fn tell_spelling<E: Write>(text: &str, errors: &mut E) {
    if Address::read(text.as_bytes()).is_ok() {
        return;
    }
    if let Some(address) = meant(text) {
        if let Ok(address) = str::from_utf8(address.bytes()) {
            let _ = writeln!(errors, "    Write {address}");
        }
    }
}

/// The address that a text means.
fn meant(text: &str) -> Option<Address> {
    if let Some(path) = text.strip_prefix("unix:") {
        return Address::read(path.as_bytes()).ok();
    }
    let text = text.strip_prefix("http://").unwrap_or(text);
    let text = text.strip_suffix("/").unwrap_or(text);
    if text.starts_with("[") {
        return meant_in_brackets(text);
    }
    let (host, port) = text.split_once(":")?;
    let host = match host {
        "" | "*" => "0.0.0.0",
        "localhost" => "127.0.0.1",
        host => host,
    };
    Address::read(
        InlineText::<MOST>::of(format_args!("{host}:{port}"))
            .as_str()
            .as_bytes(),
    )
    .ok()
}

/// The address that an IPv6 address in brackets means: a dotted one, where it is mapped from IPv4.
fn meant_in_brackets(text: &str) -> Option<Address> {
    let socket = SocketAddrV6::from_str(text).ok()?;
    let (ip, port) = (*socket.ip(), socket.port());
    let spelling = match ip.to_ipv4_mapped() {
        Some(dotted) => InlineText::<MOST>::of(format_args!("{dotted}:{port}")),
        None => InlineText::<MOST>::of(format_args!("[{}]:{port}", ip.hex_groups())),
    };
    Address::read(spelling.as_str().as_bytes()).ok()
}

/// Says how the listener of a configuration is written that is refused for its spelling.
pub fn tell_listener<E: Write>(
    alloc: Global,
    text: &[u8],
    refusal: &ConfigRefusal,
    errors: &mut E,
) {
    let (group, index) = match refusal {
        ConfigRefusal::BadAddress(index, _) => (None, *index),
        ConfigRefusal::Group(group, GroupFault::BadAddress(index, _)) => (Some(*group), *index),
        _ => return,
    };
    let Ok(table) = toml::table_from_slice(alloc, text) else {
        return;
    };
    if let Some(listener) = listener_in(&table, group, index) {
        tell_spelling(listener, errors);
    }
}

/// The text of a listener of a configuration, or of a group of it.
fn listener_in(table: &Table, group: Option<usize>, index: usize) -> Option<&str> {
    let table = match group {
        None => table,
        Some(group) => table.get("groups")?.as_array()?.get(group)?.as_table()?,
    };
    table.get("listeners")?.as_array()?.get(index)?.as_str()
}
