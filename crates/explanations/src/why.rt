//! `--why`: what is said of a fault after its line, for people.
use crate::meaning_of;
use crate::places::{Evidence, tell_file, tell_place};
use code_explanations::Explanation;
use command_line::{Request, complaint};
use faults::Fault;
use plain_text::read_number;
use std::alloc::Global;
use std::io::Write;
use std::rt::Files;

/// Says where the fault of a request was found, what stood there, and what its codes mean. What can't be found out any
/// more, since memory or a file is refused, isn't said.
#[inline(never)]
pub fn tell<R: AllocGlobal + Files, E: Write>(
    rt: &R,
    request: &Request<'_>,
    evidence: &Evidence<'_>,
    fault: &Fault,
    errors: &mut E,
) {
    tell_place(rt, request, evidence, fault, errors);
    tell_meanings(rt.alloc(), fault, errors);
}

/// Says of arguments that ask for nothing what `clap` says of them, and what the codes of the fault mean.
#[inline(never)]
pub fn tell_usage<E: Write>(alloc: Global, args: &[String], fault: &Fault, errors: &mut E) {
    tell_complaint(alloc, args, errors);
    tell_numbers(args, errors);
    tell_meanings(alloc, fault, errors);
}

/// Whether arguments have a `--why`, before any `--`.
pub fn has_why(args: &[String]) -> bool {
    args.iter()
        .take_while(|arg| arg.as_str() != "--")
        .any(|arg| arg.as_str() == "--why")
}

/// What `clap` says of the command line.
fn tell_complaint<E: Write>(alloc: Global, args: &[String], errors: &mut E) {
    if let Ok(Some(text)) = complaint(alloc, args) {
        for line in text.as_str().split('\n') {
            if !line.is_empty() {
                let _ = writeln!(errors, "  {line}");
            }
        }
    }
}

/// The options whose values are numbers.
const COUNTS: [&str; 6] = [
    "--workers",
    "--events",
    "--limit",
    "--least",
    "--answer-within",
    "--ready-within",
];

/// The values of options that should be numbers, and are not.
fn tell_numbers<E: Write>(args: &[String], errors: &mut E) {
    for (place, arg) in args
        .iter()
        .take_while(|arg| arg.as_str() != "--")
        .enumerate()
    {
        if COUNTS.contains(&arg.as_str()) {
            if let Some(value) = args.get(place.saturating_add(1)) {
                tell_number(arg.as_str(), value.as_str(), errors);
            }
        }
    }
}

/// The value of an option, if it is no number.
fn tell_number<E: Write>(option: &str, value: &str, errors: &mut E) {
    if read_number(value.as_bytes()).is_none() {
        let _ = writeln!(
            errors,
            "  {option} {value}: numbers from 0 to 4294967295 are allowed, without leading zeros"
        );
    }
}

/// What each code in the line of a fault means.
fn tell_meanings<E: Write>(alloc: Global, fault: &Fault, errors: &mut E) {
    if let Ok(text) = format!(in alloc; "{fault}") {
        tell_codes(text.as_str(), errors);
    }
}

/// What each code of a line means.
fn tell_codes<E: Write>(line: &str, errors: &mut E) {
    for word in line.split(' ') {
        if let Some(explanation) = meaning_of(word) {
            tell_meaning(&explanation, errors);
        }
    }
}

/// How a line of a block begins whose word was refused.
const REFUSED: &[u8] = b"refused ";

/// How a line of a block begins whose word was refused since its configuration is refused, or can't be read.
const DECLINED: [&[u8]; 2] = [b"refused C", b"refused W4"];

/// How the block of a line begins that is no word.
const UNREAD: &[u8] = b"unread ";

/// What the codes of refused words and unread lines mean: each line that says `refused` or `unread` is explained where it
/// comes first.
#[inline(never)]
pub fn tell_refusals<E: Write>(text: &[u8], errors: &mut E) {
    for (place, line) in text.split(|byte| *byte == b'\n').enumerate() {
        if is_refusal(line) && !has_before(text, place, line) {
            if let Ok(line) = str::from_utf8(line) {
                tell_codes(line, errors);
            }
        }
    }
}

/// Says where the file of an option is refused, and what is wrong there, if a word of these blocks was refused for it. The
/// file is read anew.
#[inline(never)]
pub fn tell_declined<R: AllocGlobal + Files, E: Write>(
    rt: &R,
    option: &str,
    path: Option<&str>,
    blocks: &[u8],
    errors: &mut E,
) {
    if blocks.split(|byte| *byte == b'\n').any(is_declined) {
        let _ = tell_file(rt, option, path, errors);
    }
}

fn is_declined(line: &[u8]) -> bool {
    DECLINED.iter().any(|start| line.starts_with(start))
}

fn is_refusal(line: &[u8]) -> bool {
    line.starts_with(REFUSED) || line.starts_with(UNREAD)
}

/// Whether a text has a line before the one at a place, counted from 0.
fn has_before(text: &[u8], place: usize, line: &[u8]) -> bool {
    text.split(|byte| *byte == b'\n')
        .take(place)
        .any(|before| before == line)
}

/// A line for the meaning, and the lines of the remedy.
fn tell_meaning<E: Write>(explanation: &Explanation, errors: &mut E) {
    let _ = writeln!(errors, "  {}: {}", explanation.code, explanation.meaning);
    for line in explanation.remedy.lines() {
        let _ = writeln!(errors, "    {line}");
    }
}
