//! Lines that a fault is about.
use address_spellings::line_of_socket;
use master_config::{ConfigRefusal, GroupFault, Key};
use std::alloc::{AllocError, Global};

/// How a group begins that is written as a table of its own.
pub(crate) const HEADING: &[u8] = b"[[groups]]";

/// A line of a text, with its number from 1.
#[derive(Clone, Copy)]
pub struct FoundLine<'a> {
    pub number: usize,
    pub text: &'a [u8],
}

/// The line of a configuration that a refusal is about, if it is about a key: the line of the listener or else that of the
/// key; of a group's key, the line under the heading of the group, or the heading itself if the group has no such line;
/// the same of an option of a socket.
pub fn line_of_refusal<'a>(
    alloc: Global,
    text: &'a [u8],
    refusal: &ConfigRefusal,
) -> Result<Option<FoundLine<'a>>, AllocError> {
    if let Some((number, text)) = line_of_socket(alloc, text, refusal)? {
        return Ok(Some(FoundLine { number, text }));
    }
    let Some(found) = line_of_its_key(text, refusal) else {
        return Ok(None);
    };
    Ok(match index_of(refusal) {
        Some(index) if names(found.text, Key::Listeners) => {
            line_of_text(text, found.number, index)
        }
        _ => Some(found),
    })
}

fn line_of_its_key<'a>(text: &'a [u8], refusal: &ConfigRefusal) -> Option<FoundLine<'a>> {
    if let ConfigRefusal::Group(index, fault) = refusal {
        let found = line_of_group(text, *index, key_of_group(fault));
        if found.is_some() {
            return found;
        }
    }
    match key_of(refusal) {
        Some(key) => line_of_key(text, key),
        None => None,
    }
}

/// The index of the listener that a refusal is about, where it is about one.
fn index_of(refusal: &ConfigRefusal) -> Option<usize> {
    match refusal {
        ConfigRefusal::BadAddress(index, _) | ConfigRefusal::Doubled(index) => Some(*index),
        ConfigRefusal::Group(_, GroupFault::BadAddress(index, _) | GroupFault::Doubled(index)) => {
            Some(*index)
        }
        _ => None,
    }
}

/// The line on which the text at an index, counted from 0, begins, of the texts from the line with a number on.
fn line_of_text(text: &[u8], number: usize, index: usize) -> Option<FoundLine<'_>> {
    let mut begun: usize = 0;
    for (place, line) in text.split(|byte| *byte == b'\n').enumerate() {
        if place.saturating_add(1) >= number {
            begun = begun.saturating_add(texts_in(line));
        }
        if begun > index {
            return Some(FoundLine {
                number: place.saturating_add(1),
                text: line,
            });
        }
    }
    None
}

/// How many texts in quotes a line has before its comment.
fn texts_in(line: &[u8]) -> usize {
    let mut begun: usize = 0;
    let mut open = None;
    for byte in line {
        match open {
            Some(quote) if quote == *byte => open = None,
            Some(_) => (),
            None if *byte == b'#' => return begun,
            None if matches!(*byte, b'"' | b'\'') => {
                open = Some(*byte);
                begun = begun.saturating_add(1);
            }
            None => (),
        }
    }
    begun
}

/// The key that a refusal is about, where it is about one.
fn key_of(refusal: &ConfigRefusal) -> Option<Key> {
    match refusal {
        ConfigRefusal::WrongKind(key) | ConfigRefusal::OutOfRange(key) => Some(*key),
        ConfigRefusal::BadAddress(..) | ConfigRefusal::Doubled(_) | ConfigRefusal::NoListener => {
            Some(Key::Listeners)
        }
        ConfigRefusal::BadPid => Some(Key::Pid),
        ConfigRefusal::BadCommand => Some(Key::Command),
        ConfigRefusal::Mixed | ConfigRefusal::Group(..) => Some(Key::Groups),
        ConfigRefusal::BadService => Some(Key::Service),
        ConfigRefusal::BadSockets | ConfigRefusal::NoSuchListener | ConfigRefusal::Socket(..) => {
            Some(Key::Sockets)
        }
        _ => None,
    }
}

/// The key of a group that its fault is about, where it is about one.
fn key_of_group(fault: &GroupFault) -> Option<Key> {
    match fault {
        GroupFault::WrongKind(key) | GroupFault::OutOfRange(key) => Some(*key),
        GroupFault::BadAddress(..) | GroupFault::Doubled(_) | GroupFault::NoListener => {
            Some(Key::Listeners)
        }
        GroupFault::UnknownKey => None,
    }
}

/// The first line that begins with a key, or with a heading of its name.
fn line_of_key(text: &[u8], key: Key) -> Option<FoundLine<'_>> {
    for (place, line) in text.split(|byte| *byte == b'\n').enumerate() {
        if names(line, key) {
            return Some(FoundLine {
                number: place.saturating_add(1),
                text: line,
            });
        }
    }
    None
}

/// The last line behind the heading of the group at an index, counted from 0, that begins with a key, or else the heading.
fn line_of_group(text: &[u8], index: usize, key: Option<Key>) -> Option<FoundLine<'_>> {
    let mut begun: usize = 0;
    let mut found = None;
    for (place, line) in text.split(|byte| *byte == b'\n').enumerate() {
        let is_heading = line.trim_ascii_start().starts_with(HEADING);
        if is_heading {
            begun = begun.saturating_add(1);
        }
        let is_its = is_heading || key.is_some_and(|key| names(line, key));
        if begun == index.saturating_add(1) && is_its {
            found = Some(FoundLine {
                number: place.saturating_add(1),
                text: line,
            });
        }
    }
    found
}

/// The line in which the byte at a place is, or the last one.
pub fn line_of_byte(text: &[u8], at: usize) -> Option<FoundLine<'_>> {
    let mut begun: usize = 0;
    let mut found = None;
    for (place, line) in text.split(|byte| *byte == b'\n').enumerate() {
        if begun <= at {
            found = Some(FoundLine {
                number: place.saturating_add(1),
                text: line,
            });
        }
        begun = begun.saturating_add(line.len()).saturating_add(1);
    }
    found
}

/// Whether a line begins with a key, or with a heading of its name.
fn names(line: &[u8], key: Key) -> bool {
    let start = line
        .iter()
        .position(|byte| !matches!(*byte, b' ' | b'\t' | b'['))
        .unwrap_or(line.len());
    line[start..].starts_with(key.name().as_bytes())
}

/// The line at a place of a block, behind its first line, or the last that the block has before that. Blocks are counted
/// from 1, and begin with `word` or `unread`.
pub fn line_of_block(given: &[u8], number: usize, place: usize) -> Option<FoundLine<'_>> {
    let mut begun: usize = 0;
    let mut behind: usize = 0;
    let mut found = None;
    for (index, text) in given.split(|byte| *byte == b'\n').enumerate() {
        if text.starts_with(b"word ") || text.starts_with(b"unread ") {
            begun = begun.saturating_add(1);
            behind = 0;
        } else {
            behind = behind.saturating_add(1);
        }
        if begun == number && behind <= place && !text.is_empty() {
            found = Some(FoundLine {
                number: index.saturating_add(1),
                text,
            });
        }
    }
    found
}
