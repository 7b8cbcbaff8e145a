//! Where the options of a socket are refused, and what is said of them.
use crate::tell_spelling;
use listener_set::MOST_LISTENERS;
use master_config::{ConfigRefusal, SocketFault, is_option_of_path, is_option_of_port};
use std::alloc::{AllocError, Global};
use std::io::Write;
use toml::Table;

/// What a refusal is about: an address that `sockets` has, and a key of it if it is about one.
#[derive(Clone, Copy)]
struct Subject<'a> {
    address: &'a str,
    key: Option<&'a str>,
}

/// The line of a configuration, with its number from 1, at which the options of a socket are refused: that of the key
/// below the heading of the address, or else the first that has the address. Without memory it is not known.
pub fn line_of_socket<'a>(
    alloc: Global,
    text: &'a [u8],
    refusal: &ConfigRefusal,
) -> Result<Option<(usize, &'a [u8])>, AllocError> {
    if !has_subject(refusal) {
        return Ok(None);
    }
    match toml::table_from_slice(alloc, text) {
        Ok(table) => match subject_of(&table, refusal) {
            Some(subject) => Ok(line_of(text, &subject)),
            None => Ok(None),
        },
        Err(error) if error.is_memory() => Err(AllocError),
        Err(_) => Ok(None),
    }
}

/// Says of an address that no listener has how it is written, and of an unknown key which ones such a socket has.
pub fn tell_socket<E: Write>(alloc: Global, text: &[u8], refusal: &ConfigRefusal, errors: &mut E) {
    if !has_subject(refusal) {
        return;
    }
    let Ok(table) = toml::table_from_slice(alloc, text) else {
        return;
    };
    let Some(subject) = subject_of(&table, refusal) else {
        return;
    };
    match refusal {
        ConfigRefusal::NoSuchListener => tell_spelling(subject.address, errors),
        ConfigRefusal::Socket(_, SocketFault::UnknownKey) => tell_keys(subject.address, errors),
        _ => (),
    }
}

fn tell_keys<E: Write>(address: &str, errors: &mut E) {
    let keys = if address.starts_with("/") {
        "a path are backlog, group, mode and owner"
    } else {
        "an address with a port are backlog and defer_accept"
    };
    let _ = writeln!(errors, "    The keys of {keys}");
}

fn has_subject(refusal: &ConfigRefusal) -> bool {
    matches!(
        refusal,
        ConfigRefusal::NoSuchListener | ConfigRefusal::Socket(..)
    )
}

fn subject_of<'a>(table: &'a Table, refusal: &ConfigRefusal) -> Option<Subject<'a>> {
    match refusal {
        ConfigRefusal::NoSuchListener => Some(Subject {
            address: stranger_in(table)?,
            key: None,
        }),
        ConfigRefusal::Socket(index, fault) => {
            let address = listener_at(table, *index)?;
            Some(Subject {
                address,
                key: key_of(table, address, fault),
            })
        }
        _ => None,
    }
}

/// The first address of `sockets` that is no listener's.
fn stranger_in(table: &Table) -> Option<&str> {
    for name in table.get("sockets")?.as_table()?.keys() {
        if !has_listener(table, name.as_str()) {
            return Some(name.as_str());
        }
    }
    None
}

fn has_listener(table: &Table, text: &str) -> bool {
    (0..MOST_LISTENERS).any(|index| listener_at(table, index).is_some_and(|found| found == text))
}

/// The listener at an index, counted from 0 over all groups.
fn listener_at(table: &Table, index: usize) -> Option<&str> {
    if let Some(groups) = table.get("groups") {
        let mut left = index;
        for group in groups.as_array()? {
            let listeners = group.get("listeners")?.as_array()?;
            if left < listeners.len() {
                return listeners.get(left)?.as_str();
            }
            left -= listeners.len();
        }
        return None;
    }
    match table.get("listeners") {
        Some(listeners) => listeners.as_array()?.get(index)?.as_str(),
        None if index == 0 => Some("0.0.0.0:8080"),
        None => None,
    }
}

fn key_of<'a>(table: &'a Table, address: &str, fault: &SocketFault) -> Option<&'a str> {
    match fault {
        SocketFault::NotTable => None,
        SocketFault::UnknownKey => unknown_key(table, address),
        SocketFault::BadValue(key) => Some(key.name()),
    }
}

/// The first key of an address that such a socket does not have.
fn unknown_key<'a>(table: &'a Table, address: &str) -> Option<&'a str> {
    let options = table.get("sockets")?.as_table()?.get(address)?.as_table()?;
    for name in options.keys() {
        if !is_option(address, name.as_str()) {
            return Some(name.as_str());
        }
    }
    None
}

fn is_option(address: &str, name: &str) -> bool {
    if address.starts_with("/") {
        is_option_of_path(name)
    } else {
        is_option_of_port(name)
    }
}

fn line_of<'a>(text: &'a [u8], subject: &Subject<'_>) -> Option<(usize, &'a [u8])> {
    let mut found = None;
    let mut is_in_sockets = false;
    let mut is_its = false;
    for (place, line) in text.split(|byte| *byte == b'\n').enumerate() {
        let start = line.trim_ascii_start();
        let here = Some((place.saturating_add(1), line));
        if start.starts_with(b"[") {
            is_in_sockets = start.starts_with(b"[sockets");
            is_its = false;
        }
        if (is_in_sockets || start.starts_with(b"sockets")) && has_key(start, subject.address) {
            is_its = true;
            found = found.or(here);
        }
        if is_its && subject.key.is_some_and(|key| sets(start, key)) {
            return here;
        }
    }
    found
}

/// Whether a line has a key between quotes, or begins with it, or is its heading.
fn has_key(line: &[u8], key: &str) -> bool {
    let is_quoted = line
        .split(|byte| matches!(*byte, b'"' | b'\''))
        .any(|part| part == key.as_bytes());
    is_quoted || sets(line, key) || is_heading_of(line, key)
}

/// Whether a line is the heading of a key without quotes.
fn is_heading_of(line: &[u8], key: &str) -> bool {
    match line.strip_prefix(b"[sockets.") {
        Some(rest) => rest
            .strip_prefix(key.as_bytes())
            .is_some_and(|end| end.starts_with(b"]")),
        None => false,
    }
}

/// Whether a line begins with a key and sets it.
fn sets(line: &[u8], key: &str) -> bool {
    match line.strip_prefix(key.as_bytes()) {
        Some(rest) => rest.trim_ascii_start().starts_with(b"="),
        None => false,
    }
}
