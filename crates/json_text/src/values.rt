//! What the texts of all answers share.
use serde::Serialize;
use std::alloc::{AllocError, Global};

/// The text of a value, and a newline.
pub fn line_of<T: Serialize>(alloc: Global, value: &T) -> Result<Vec<u8>, AllocError> {
    // (to write a value fails only where memory is refused)
    let Ok(mut text) = serde_json::to_vec(alloc, value) else {
        return Err(AllocError);
    };
    text.push(b'\n').map_err(AllocError::from)?;
    Ok(text)
}

/// The bytes of an answer, which are ASCII.
pub fn text_of(answer: &[u8]) -> &str {
    str::from_utf8(answer).unwrap_or("")
}

/// The number that a text is, or 0.
pub fn number_in(text: &str) -> u64 {
    plain_text::read_number64(text.as_bytes()).unwrap_or(0)
}

/// What is before a text in another one, and what is after it: all and nothing where it is not there.
pub fn parted<'a>(text: &'a str, between: &str) -> (&'a str, &'a str) {
    text.split_once(between).unwrap_or((text, ""))
}

/// A text, where it is not empty.
pub fn some_text(text: &str) -> Option<&str> {
    if text.is_empty() { None } else { Some(text) }
}
