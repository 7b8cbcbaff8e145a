//! The account of a life, as `certify --life` answers.
use crate::values::{number_in, parted};
use serde::Serialize;
use std::alloc::{AllocError, Global};

#[derive(Drop, Serialize)]
struct LeastInLife {
    workers: u64,
    word: u64,
    after_call: u64,
}

#[derive(Drop, Serialize)]
struct OpenValue<'a> {
    address: &'a str,
    least_ready: Option<LeastInLife>,
}

#[derive(Drop, Serialize)]
struct ShortValue {
    word: u64,
    missing: u64,
    healed: Option<u64>,
}

#[derive(Drop, Serialize)]
pub(crate) struct LifeValue<'a> {
    words: u64,
    open: Vec<OpenValue<'a>>,
    short: Vec<ShortValue>,
}

/// The number of a word; that of the start is 0.
fn word_in(text: &str) -> u64 {
    number_in(text.strip_prefix("word ").unwrap_or("0"))
}

/// The fewest ready workers, if there was a table that counts.
fn least_in(text: &str) -> Option<LeastInLife> {
    if text == "none" {
        return None;
    }
    let (workers, place) = parted(text, " at ");
    let (word, call) = parted(place, " after call ");
    Some(LeastInLife {
        workers: number_in(workers),
        word: word_in(word),
        after_call: number_in(call),
    })
}

/// The line of an address, after what it begins with.
fn open_in(text: &str) -> OpenValue<'_> {
    let (address, least) = parted(text, " least ready ");
    OpenValue {
        address,
        least_ready: least_in(least),
    }
}

/// The line of a word that ended with missing workers, after what it begins with.
fn short_in(text: &str) -> ShortValue {
    let (word, rest) = parted(text, " missing ");
    let (missing, healed) = parted(rest, " ");
    ShortValue {
        word: word_in(word),
        missing: number_in(missing),
        healed: healed.strip_prefix("healed word ").map(number_in),
    }
}

/// The account that is behind `life words ` in an answer; none where nothing is.
pub(crate) fn life_in(alloc: Global, text: &str) -> Result<Option<LifeValue<'_>>, AllocError> {
    if text.is_empty() {
        return Ok(None);
    }
    let (words, lines) = parted(text, "\n");
    let mut open = Vec::new(alloc);
    let mut short = Vec::new(alloc);
    for line in lines.lines() {
        if line.ends_with("throughout none") || line == "short none" {
            continue;
        }
        if let Some(rest) = line.strip_prefix("open throughout ") {
            open.push(open_in(rest)).map_err(AllocError::from)?;
        } else if let Some(rest) = line.strip_prefix("short ") {
            short.push(short_in(rest)).map_err(AllocError::from)?;
        }
    }
    let words = number_in(words);
    Ok(Some(LifeValue { words, open, short }))
}
