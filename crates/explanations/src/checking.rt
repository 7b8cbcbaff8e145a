//! `check`: whether files would be read as configurations, and else where and why not.
ghost use Rattle.std.specs.Prelude.{◌≡◌, IfOk, IfErr};
ghost use Rattle.explanations.specs.Verdicts.{IsTaken};
ghost use Rattle.faults.specs.declared.fault.Fault.TheVariants.{Memory};

use crate::lines::{FoundLine, line_of_byte, line_of_refusal};
use crate::meaning_of;
use crate::places::{group_of, put_key, put_shown, unknown_in};
use code_explanations::allowed_for;
use faults::Fault;
use master_config::ConfigRefusal;
use std::alloc::{AllocError, Global};
use std::io::{ErrorKind, Write};
use std::rt::Files;
use std::{fs, io};

/// Appends a line for a file: whether it would be read as a configuration, which is given, and else where and why not. It
/// fails only where memory is refused; there may be a part of the line then.
pub fn check_file<R: AllocGlobal + Files>(
    rt: &R,
    path: &str,
    out: &mut Vec<u8>,
) -> Result<bool, Fault>
    ensures { IfErr result (λ fault. fault ≡ Memory) }
{
    match fs::read(rt, path) {
        Ok(text) => check_text(rt.alloc(), path, text.as_slice(), out),
        Err(error) => match error.kind() {
            ErrorKind::OutOfMemory => Err(Fault::Memory),
            kind => {
                put_unread(path, kind, out)?;
                Ok(false)
            }
        },
    }
}

/// The same of a file with this text.
pub fn check_text(alloc: Global, path: &str, text: &[u8], out: &mut Vec<u8>) -> Result<bool, Fault>
    ensures ok { IfOk result (IsTaken text.now) }
    ensures err { IfErr result (λ fault. fault ≡ Memory) }
{
    let refusal = match master_config::read(alloc, text) {
        Ok(_) => {
            put_taken(path, out)?;
            return Ok(true);
        }
        Err(refusal) => refusal,
    };
    if let ConfigRefusal::Memory = refusal {
        return Err(Fault::Memory);
    }
    put_refusal(alloc, path, text, &refusal, out)?;
    Ok(false)
}

/// What comes of a write into memory: it fails only where memory is refused.
fn in_memory(written: io::Result<()>) -> Result<(), AllocError> {
    match written {
        Ok(()) => Ok(()),
        Err(_) => Err(AllocError),
    }
}

/// The line of a file that would be read.
fn put_taken(path: &str, out: &mut Vec<u8>) -> Result<(), AllocError> {
    in_memory(writeln!(out, "{path}: ok"))
}

/// The line of a file that cannot be read.
fn put_unread(path: &str, kind: ErrorKind, out: &mut Vec<u8>) -> Result<(), AllocError> {
    in_memory(match kind {
        ErrorKind::NotFound => writeln!(out, "{path}: file: it cannot be read: no such file"),
        kind => writeln!(out, "{path}: file: it cannot be read: {kind}"),
    })
}

/// The line of a file whose text is refused.
fn put_refusal(
    alloc: Global,
    path: &str,
    text: &[u8],
    refusal: &ConfigRefusal,
    out: &mut Vec<u8>,
) -> Result<(), AllocError> {
    if let ConfigRefusal::NotToml = refusal {
        return put_broken(alloc, path, text, out);
    }
    match unknown_in(text, refusal) {
        Some(unknown) => {
            put_head(alloc, path, Some(unknown.line), refusal, out)?;
            out.extend_from_slice(b": ")?;
            in_memory(put_key(alloc, unknown.key, group_of(refusal), out))
        }
        None => {
            let found = line_of_refusal(alloc, text, refusal)?;
            put_head(alloc, path, found, refusal, out)?;
            put_found(found, out)
        }
    }
}

/// The line of a file whose text is not TOML.
fn put_broken(alloc: Global, path: &str, text: &[u8], out: &mut Vec<u8>) -> Result<(), AllocError> {
    let refusal = ConfigRefusal::NotToml;
    let Err(error) = toml::table_from_slice(alloc, text) else {
        put_head(alloc, path, None, &refusal, out)?;
        return Ok(out.extend_from_slice(b"\n")?);
    };
    if error.is_memory() {
        return Err(AllocError);
    }
    let found = match error.span() {
        Some(span) => line_of_byte(text, span.start),
        None => None,
    };
    put_head(alloc, path, found, &refusal, out)?;
    in_memory(writeln!(out, ": {}", error.message()))
}

/// Where a refusal was found, its code, what that means, and what is allowed there.
fn put_head(
    alloc: Global,
    path: &str,
    found: Option<FoundLine<'_>>,
    refusal: &ConfigRefusal,
    out: &mut Vec<u8>,
) -> Result<(), AllocError> {
    in_memory(write!(out, "{path}:"))?;
    if let Some(line) = found {
        in_memory(write!(out, "{}:", line.number))?;
    }
    in_memory(write!(out, " {refusal}"))?;
    let codes = format!(in alloc; "{refusal}")?;
    for word in codes.as_str().split(' ') {
        if let Some(explanation) = meaning_of(word) {
            in_memory(write!(out, ": {}", explanation.meaning))?;
        }
    }
    match allowed_for(codes.as_str()) {
        Some(allowed) => in_memory(write!(out, " (allowed: {allowed})")),
        None => Ok(()),
    }
}

/// What was found there, to the end of the line.
fn put_found(found: Option<FoundLine<'_>>, out: &mut Vec<u8>) -> Result<(), AllocError> {
    if let Some(line) = found {
        out.extend_from_slice(b": ")?;
        in_memory(put_shown(line.text.trim_ascii(), out))?;
    }
    Ok(out.extend_from_slice(b"\n")?)
}
