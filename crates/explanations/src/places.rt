//! Where a fault was found.
use crate::asking::{files_of, start_of};
use crate::keys::{UnknownKey, is_of_configuration, nearest, unknown_key};
use crate::lines::{FoundLine, line_of_block, line_of_byte, line_of_refusal};
use address_spellings::{tell_listener, tell_socket, tell_spelling};
use command_line::Request;
use faults::Fault;
use lines_text::TextRefusal;
use listener_set::FilePath;
use master_config::{ConfigRefusal, GroupFault};
use mismatches::Mismatch;
use std::alloc::Global;
use std::io::{ErrorKind, Write};
use std::rt::Files;
use std::{fs, io};

/// What is known beside a fault.
#[derive(Clone, Copy)]
pub struct Evidence<'a> {
    /// What was read of standard input.
    pub given: &'a [u8],
    /// The line that the master would have had, where a block has another.
    pub instead: Option<&'a [u8]>,
}

/// Where the fault was found.
pub fn tell_place<R: AllocGlobal + Files, E: Write>(
    rt: &R,
    request: &Request<'_>,
    evidence: &Evidence<'_>,
    fault: &Fault,
    errors: &mut E,
) {
    match fault {
        Fault::Usage => tell_values(request, errors),
        Fault::Word(number, _) => tell_word(request, *number, errors),
        Fault::Config(_) | Fault::File => tell_files(rt, request, errors),
        Fault::Boot(_) => tell_workers(request, errors),
        Fault::Running(number) => tell_running(rt, request, *number, errors),
        Fault::Address(_) | Fault::Foreign(_) => tell_held(request, errors),
        Fault::Pattern(refusal) | Fault::Transcript(refusal) => {
            tell_line(evidence.given, refusal, errors)
        }
        Fault::Certify(number, mismatch) => {
            tell_block(evidence.given, *number, mismatch, errors);
            tell_instead(evidence.instead, errors);
        }
        _ => (),
    }
}

/// The values that no option has, and what does not go with `--json`.
fn tell_values<E: Write>(request: &Request<'_>, errors: &mut E) {
    let beside = match request {
        Request::Plan(options) if options.start.json && options.dot => Some("--dot"),
        Request::Explore(options) if options.start.json && options.list => Some("--list"),
        _ => None,
    };
    if let Some(option) = beside {
        let _ = writeln!(errors, "  --json {option}: give one of the two");
    }
    if let Request::Explore(options) = request {
        tell_events(options.events, errors);
        tell_turns(options.turns, errors);
        tell_end("--forbid", options.forbid, "degraded", errors);
        tell_end("--require", options.require, "done", errors);
    }
}

/// The number of events, where runs can't have so many.
fn tell_events<E: Write>(events: Option<u32>, errors: &mut E) {
    match events {
        None | Some(1) | Some(2) => (),
        Some(events) => {
            let _ = writeln!(errors, "  --events {events}: 1 and 2 are allowed");
        }
    }
}

/// The turns, where they have another letter or none.
fn tell_turns<E: Write>(turns: Option<&str>, errors: &mut E) {
    match turns {
        Some(turns) if !are_turns(turns) => {
            let _ = writeln!(
                errors,
                "  --turns {turns}: only 'all' and the letters n and o are allowed"
            );
        }
        _ => {}
    }
}

fn are_turns(text: &str) -> bool {
    text == "all" || (!text.is_empty() && text.bytes().all(is_turn))
}

fn is_turn(letter: u8) -> bool {
    letter == b'n' || letter == b'o'
}

/// The end that an option names, where it is not the one that is allowed.
fn tell_end<E: Write>(option: &str, end: Option<&str>, allowed: &str, errors: &mut E) {
    let Some(end) = end else {
        return;
    };
    if end != allowed {
        let _ = writeln!(errors, "  {option} {end}: only {allowed} is allowed");
    }
}

fn tell_word<E: Write>(request: &Request<'_>, number: usize, errors: &mut E) {
    let word = match request {
        Request::Enact(options) => options.words.get(number.wrapping_sub(1)).copied(),
        Request::Plan(options) => Some(options.word),
        Request::Explore(options) => Some(options.word),
        _ => None,
    };
    if let Some(word) = word {
        let _ = writeln!(errors, "  word {number}: {word}");
    }
}

fn tell_held<E: Write>(request: &Request<'_>, errors: &mut E) {
    let held = match request {
        Request::Enact(options) => options.held,
        Request::Explore(options) => options.held,
        Request::Certify(options) => options.held,
        _ => None,
    };
    if let Some(held) = held {
        let _ = writeln!(errors, "  --held {held}");
        tell_spelling(held, errors);
    }
}

fn tell_workers<E: Write>(request: &Request<'_>, errors: &mut E) {
    if let Some(start) = start_of(request) {
        if let Some(workers) = start.workers {
            let _ = writeln!(errors, "  --workers {workers}");
        }
    }
}

/// The faulty line of standard input.
fn tell_line<E: Write>(given: &[u8], refusal: &TextRefusal, errors: &mut E) {
    let number = match refusal {
        TextRefusal::Line(number) | TextRefusal::Order(number) => *number,
        TextRefusal::Memory => return,
    };
    let _ = write!(errors, "  standard input, line {number}: ");
    tell_text(line_at(given, number), errors);
}

/// The line with this number, counted from 1; none after the end.
fn line_at(text: &[u8], number: usize) -> Option<&[u8]> {
    let line = text
        .split(|byte| *byte == b'\n')
        .nth(number.wrapping_sub(1))?;
    let is_after = line.is_empty() && !has_line(text, number.wrapping_add(1));
    if is_after { None } else { Some(line) }
}

/// Whether a text has a line with this number, counted from 1, or ends with the newline before it.
fn has_line(text: &[u8], number: usize) -> bool {
    text.split(|byte| *byte == b'\n')
        .nth(number.wrapping_sub(1))
        .is_some()
}

/// A text on the rest of the line.
fn tell_text<E: Write>(text: Option<&[u8]>, errors: &mut E) {
    let _ = match text {
        Some(text) if text.is_empty() => errors.write_all(b"(empty)"),
        Some(text) => errors.write_all(text),
        None => errors.write_all(b"(the input ends here, inside a block)"),
    };
    let _ = errors.write_all(b"\n");
}

/// Which of the files of a request is refused, and the line of the key that is.
fn tell_files<R: AllocGlobal + Files, E: Write>(rt: &R, request: &Request<'_>, errors: &mut E) {
    let named = files_of(request);
    if tell_file(rt, "--from", named.from, errors) {
        return;
    }
    if let Request::Supervise(_) = request {
        tell_pid_file(rt, named.from, errors);
    }
    if let Request::Certify(options) = request {
        return tell_goals(rt, options.goals.as_slice(), errors);
    }
    let _ = tell_file(rt, "--to", named.to, errors);
}

/// Says of the first of several files of `--to` that is refused what is wrong there.
fn tell_goals<R: AllocGlobal + Files, E: Write>(rt: &R, goals: &[&str], errors: &mut E) {
    for goal in goals {
        if tell_file(rt, "--to", Some(goal), errors) {
            return;
        }
    }
}

/// Says of a file whether the fault is its; whether it was.
pub fn tell_file<R: AllocGlobal + Files, E: Write>(
    rt: &R,
    option: &str,
    path: Option<&str>,
    errors: &mut E,
) -> bool {
    let Some(path) = path else {
        return false;
    };
    let text = match fs::read(rt, path) {
        Ok(text) => text,
        Err(error) => {
            let _ = write!(errors, "  {option} {path}");
            tell_unread(error.kind(), errors);
            return true;
        }
    };
    let Err(refusal) = master_config::read(rt.alloc(), text.as_slice()) else {
        return false;
    };
    let _ = write!(errors, "  {option} {path}");
    tell_refusal(rt.alloc(), text.as_slice(), &refusal, errors);
    true
}

/// The line of a configuration that is refused, on the rest of the line, and what is wrong there.
fn tell_refusal<E: Write>(alloc: Global, text: &[u8], refusal: &ConfigRefusal, errors: &mut E) {
    if let ConfigRefusal::NotToml = refusal {
        return tell_broken(alloc, text, errors);
    }
    match unknown_in(text, refusal) {
        Some(unknown) => {
            tell_rest(Some(unknown.line), errors);
            let _ = errors.write_all(b"  unknown key: ");
            if put_key(alloc, unknown.key, group_of(refusal), errors).is_err() {
                let _ = errors.write_all(b"\n");
            }
        }
        None => {
            // (without memory the line is left out)
            tell_rest(
                line_of_refusal(alloc, text, refusal).unwrap_or(None),
                errors,
            );
            tell_listener(alloc, text, refusal, errors);
            tell_socket(alloc, text, refusal, errors);
        }
    }
}

/// The line at which a text is no longer TOML, on the rest of the line, and why.
fn tell_broken<E: Write>(alloc: Global, text: &[u8], errors: &mut E) {
    let Err(error) = toml::table_from_slice(alloc, text) else {
        return tell_rest(None, errors);
    };
    let found = match error.span() {
        Some(span) => line_of_byte(text, span.start),
        None => None,
    };
    tell_rest(found, errors);
    let _ = writeln!(errors, "  {}", error.message());
}

/// Why a file is not read, on the rest of the line.
pub fn tell_unread<E: Write>(kind: ErrorKind, errors: &mut E) {
    let _ = match kind {
        ErrorKind::NotFound => writeln!(errors, ": it cannot be read: no such file"),
        kind => writeln!(errors, ": it cannot be read: {kind}"),
    };
}

/// Why there is no pid file, on the rest of the line: one is written at the start, if that can be.
fn tell_unwritten<E: Write>(kind: ErrorKind, errors: &mut E) {
    match kind {
        ErrorKind::NotFound => {
            let _ = writeln!(errors, ": it is not there: its folder may be missing");
        }
        kind => tell_unread(kind, errors),
    }
}

/// The pid file of a configuration, if there is none to be read.
fn tell_pid_file<R: AllocGlobal + Files, E: Write>(rt: &R, path: Option<&str>, errors: &mut E) {
    let Some(pid) = pid_file_in(rt, path) else {
        return;
    };
    let Ok(name) = str::from_utf8(pid.bytes()) else {
        return;
    };
    if let Err(error) = fs::read(rt, name) {
        let _ = write!(errors, "  the pid file {name}");
        tell_unwritten(error.kind(), errors);
    }
}

/// The pid file that has the number of a process that runs.
fn tell_running<R: AllocGlobal + Files, E: Write>(
    rt: &R,
    request: &Request<'_>,
    number: u32,
    errors: &mut E,
) {
    let Some(pid) = pid_file_in(rt, files_of(request).from) else {
        return;
    };
    if let Ok(name) = str::from_utf8(pid.bytes()) {
        let _ = writeln!(errors, "  the pid file {name} has the number {number}");
    }
}

/// The pid file that a configuration names.
fn pid_file_in<R: AllocGlobal + Files>(rt: &R, path: Option<&str>) -> Option<FilePath> {
    let Ok(config) = master_config::config_in(rt, path) else {
        return None;
    };
    config.settings.pid
}

/// A line of a configuration with its number, on the rest of the line.
fn tell_rest<E: Write>(line: Option<FoundLine<'_>>, errors: &mut E) {
    if let Some(line) = line {
        let _ = write!(errors, ", line {}: ", line.number);
        let _ = put_shown(line.text.trim_ascii_end(), errors);
    }
    let _ = errors.write_all(b"\n");
}

/// The most bytes of a line that are shown.
const SHOWN: usize = 400;

/// A line for people, cut where it is long, with a question mark for each byte that a terminal could take for a command.
pub fn put_shown<W: Write>(line: &[u8], out: &mut W) -> io::Result<()> {
    let is_text = str::from_utf8(line).is_ok();
    let most = line.len().min(SHOWN);
    // (a text is not cut inside a letter)
    let end = match str::from_utf8(&line[..most]) {
        Err(error) if is_text => error.valid_up_to().min(most),
        _ => most,
    };
    let shown = &line[..end];
    let mut is_first = true;
    for piece in shown.split(|byte| is_odd(*byte, is_text)) {
        if !is_first {
            out.write_all(b"?")?;
        }
        out.write_all(piece)?;
        is_first = false;
    }
    if shown.len() < line.len() {
        out.write_all(b"..")?;
    }
    Ok(())
}

/// Whether a byte is not shown: one of no letter or sign, or one that is not ASCII in a line that is no text.
fn is_odd(byte: u8, is_text: bool) -> bool {
    match byte {
        b'\t' => false,
        0..=31 | 127 => true,
        32..=126 => false,
        128..=255 => !is_text,
    }
}

/// The group that a refusal is about, counted from 0, where it is about one.
pub fn group_of(refusal: &ConfigRefusal) -> Option<usize> {
    match refusal {
        ConfigRefusal::Group(index, _) => Some(*index),
        _ => None,
    }
}

/// The key that is unknown, where that is what is refused.
pub fn unknown_in<'a>(text: &'a [u8], refusal: &ConfigRefusal) -> Option<UnknownKey<'a>> {
    match refusal {
        ConfigRefusal::UnknownKey | ConfigRefusal::Group(_, GroupFault::UnknownKey) => {
            unknown_key(text, group_of(refusal))
        }
        _ => None,
    }
}

/// An unknown key, and where it belongs or which one may be meant, to the end of the line.
pub fn put_key<W: Write>(
    alloc: Global,
    key: &[u8],
    group: Option<usize>,
    out: &mut W,
) -> io::Result<()> {
    out.write_all(key)?;
    if is_of_configuration(key) {
        return writeln!(out, " (a key of no group: put it above the first heading)");
    }
    match nearest(alloc, key, group)? {
        Some(known) => writeln!(out, " (the nearest known key is {known})"),
        None => out.write_all(b"\n"),
    }
}

/// The line of a block that is not as it should be: an entry, or else the block's last line.
fn tell_block<E: Write>(given: &[u8], number: usize, mismatch: &Mismatch, errors: &mut E) {
    let wanted = match mismatch {
        Mismatch::Step(entry) => *entry,
        _ => usize::MAX,
    };
    if let Some(line) = line_of_block(given, number, wanted) {
        let _ = write!(errors, "  standard input, line {}: ", line.number);
        tell_text(Some(line.text), errors);
    }
}

/// The line that the master would have had there.
fn tell_instead<E: Write>(instead: Option<&[u8]>, errors: &mut E) {
    if let Some(line) = instead {
        let _ = errors.write_all(b"  the master has here: ");
        tell_text(Some(line), errors);
    }
}
