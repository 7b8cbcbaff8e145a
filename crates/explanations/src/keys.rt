//! Keys that a configuration does not have, and the nearest of those that it has.
use crate::lines::{FoundLine, HEADING};
use std::alloc::{AllocError, Global};
use strsim::generic_levenshtein;

/// The keys of a configuration.
const KEYS: [&str; 10] = [
    "command",
    "groups",
    "listeners",
    "pid",
    "retries",
    "service",
    "sockets",
    "surge",
    "timeout",
    "workers",
];

/// The keys of a group.
const GROUP_KEYS: [&str; 2] = ["listeners", "workers"];

/// A key that is not one of its table, and the line that sets it.
#[derive(Clone, Copy)]
pub struct UnknownKey<'a> {
    pub line: FoundLine<'a>,
    pub key: &'a [u8],
}

/// The keys of a group, or of the configuration.
fn keys_of(group: Option<usize>) -> &'static [&'static str] {
    match group {
        Some(_) => &GROUP_KEYS,
        None => &KEYS,
    }
}

/// The first unknown key of the group at an index, counted from 0, or of the configuration, if it begins a line.
pub fn unknown_key(text: &[u8], group: Option<usize>) -> Option<UnknownKey<'_>> {
    match group {
        Some(index) => unknown_of_group(text, index),
        None => unknown_of_configuration(text),
    }
}

/// The first unknown key above the headings, or in one.
fn unknown_of_configuration(text: &[u8]) -> Option<UnknownKey<'_>> {
    let mut is_above = true;
    for (place, line) in text.split(|byte| *byte == b'\n').enumerate() {
        let key = key_in(line);
        is_above = is_above && !is_heading(line);
        if (is_above || is_heading(line)) && is_unknown(key, &KEYS) {
            return Some(found_at(place, line, key));
        }
    }
    None
}

/// The first unknown key under the heading at an index, counted from 0.
fn unknown_of_group(text: &[u8], index: usize) -> Option<UnknownKey<'_>> {
    let mut begun: usize = 0;
    let mut is_in_group = false;
    for (place, line) in text.split(|byte| *byte == b'\n').enumerate() {
        let key = key_in(line);
        if is_heading(line) {
            is_in_group = line.trim_ascii_start().starts_with(HEADING);
            begun = begun.saturating_add(usize::from(is_in_group));
        } else if is_in_group && begun == index.saturating_add(1) && is_unknown(key, &GROUP_KEYS) {
            return Some(found_at(place, line, key));
        }
    }
    None
}

fn found_at<'a>(place: usize, line: &'a [u8], key: &'a [u8]) -> UnknownKey<'a> {
    UnknownKey {
        line: FoundLine {
            number: place.saturating_add(1),
            text: line,
        },
        key,
    }
}

fn is_heading(line: &[u8]) -> bool {
    line.trim_ascii_start().starts_with(b"[")
}

fn is_unknown(key: &[u8], keys: &[&str]) -> bool {
    !key.is_empty() && !is_among(key, keys)
}

/// The bare key that a line sets or has in its heading, or nothing.
fn key_in(line: &[u8]) -> &[u8] {
    let text = after_brackets(line.trim_ascii());
    let end = text
        .iter()
        .position(|byte| !is_of_key(*byte))
        .unwrap_or(text.len());
    match text[end..].trim_ascii_start().first() {
        Some(b'=' | b']' | b'.') => &text[..end],
        _ => &text[..0],
    }
}

fn after_brackets(text: &[u8]) -> &[u8] {
    let start = text
        .iter()
        .position(|byte| *byte != b'[')
        .unwrap_or(text.len());
    text[start..].trim_ascii_start()
}

fn is_of_key(byte: u8) -> bool {
    byte.is_ascii_alphanumeric() || byte == b'_' || byte == b'-'
}

fn is_among(key: &[u8], keys: &[&str]) -> bool {
    keys.iter().any(|known| known.as_bytes() == key)
}

/// Whether a key that no group has is one of the configuration.
pub fn is_of_configuration(key: &[u8]) -> bool {
    is_among(key, &KEYS)
}

/// The key of a group or of the configuration that is nearest to another: fewer than half of its letters are to be changed.
pub fn nearest(
    alloc: Global,
    key: &[u8],
    group: Option<usize>,
) -> Result<Option<&'static str>, AllocError> {
    let mut least = usize::MAX;
    let mut found = None;
    for known in keys_of(group) {
        let distance = generic_levenshtein(alloc, key, known.as_bytes())?;
        if distance < least && distance.saturating_add(distance) < known.len() {
            least = distance;
            found = Some(*known);
        }
    }
    Ok(found)
}
