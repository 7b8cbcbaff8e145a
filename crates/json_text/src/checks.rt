//! What `check` says of files.
use crate::values::{line_of, number_in, parted, some_text, text_of};
use serde::Serialize;
use std::alloc::{AllocError, Global};

#[derive(Drop, Serialize)]
struct ChecksAnswer<'a> {
    files: Vec<CheckedFile<'a>>,
}

/// A file, whether it would be read, and else where and why not.
#[derive(Clone, Copy, Serialize)]
struct CheckedFile<'a> {
    file: &'a str,
    outcome: &'a str,
    line: Option<u64>,
    code: Option<&'a str>,
    message: Option<&'a str>,
}

/// The lines of these files as JSON.
pub fn checks_json(
    alloc: Global,
    files: &[&str],
    lines: &[Vec<u8>],
) -> Result<Vec<u8>, AllocError> {
    let mut checked = Vec::new(alloc);
    for (file, line) in files.iter().zip(lines.iter()) {
        let found = checked_file(file, text_of(line.as_slice()));
        checked.push(found).map_err(AllocError::from)?;
    }
    line_of(alloc, &ChecksAnswer { files: checked })
}

/// `FILE: ok`, `FILE: CODE: MESSAGE` or `FILE:LINE: CODE: MESSAGE`
fn checked_file<'a>(file: &'a str, line: &'a str) -> CheckedFile<'a> {
    let after = line.strip_prefix(file).unwrap_or(line);
    let said = after.strip_prefix(":").unwrap_or(after);
    let said = said.strip_suffix("\n").unwrap_or(said);
    let (place, said) = parted(said, " ");
    let (code, message) = parted(said, ": ");
    let outcome = match code {
        "ok" => "ok",
        "file" => "unread",
        _ => "refused",
    };
    CheckedFile {
        file,
        outcome,
        line: place.strip_suffix(":").map(number_in),
        code: if outcome == "ok" { None } else { Some(code) },
        message: some_text(message),
    }
}
