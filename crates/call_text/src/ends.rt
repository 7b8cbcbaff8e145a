//! Reports, read.
ghost use Rattle.std.specs.Prelude.{◌≡◌};
ghost use Rattle.call_text.specs.Words.{note_text, side_text};
ghost use Rattle.call_text.specs.ReportText.{report_text};
ghost use Rattle.call_text.specs.Reads.{Reads};
ghost use Rattle.call_text.specs.Ranges.{IsReport};
ghost use Rattle.call_text.specs.ReportReading.{is_note, note_of, is_side, side_of, plain_outcome, degraded_of, cause_of, noted_of, closing_of, plain_report, parts_of, report_in};

use crate::parts::behind;
use crate::shortfalls::read_shortfalls;
use crate::words::{note_text, side_text};
use listener_set::Numbers;
use plain_text::{cut, read_number};
use vocabulary::{Outcome, PidNote, Report, Side};

/// All notes.
const NOTES: [PidNote; 5] = [
    PidNote::InPlace,
    PidNote::AtOldbin,
    PidNote::OldbinLeft,
    PidNote::Left,
    PidNote::NoFile,
];

fn is_note(note: PidNote, text: &[u8]) -> bool
    ensures { result ≡ is_note text.now note }
{
    note_text(note).as_bytes() == text
}

fn read_note(text: &[u8]) -> Option<PidNote>
    ensures { result ≡ note_of text.now }
{
    NOTES.iter().copied().find(|note| is_note(*note, text))
}

/// Both sides.
const SIDES: [Side; 2] = [Side::Old, Side::Target];

fn is_side(side: Side, text: &[u8]) -> bool
    ensures { result ≡ is_side text.now side }
{
    side_text(side).as_bytes() == text
}

fn read_side(text: &[u8]) -> Option<Side>
    ensures { result ≡ side_of text.now }
{
    SIDES.iter().copied().find(|side| is_side(*side, text))
}

/// An outcome of one word.
fn read_plain(word: &[u8]) -> Option<Outcome>
    ensures { result ≡ plain_outcome word.now }
{
    if word == b"done".as_slice() {
        return Some(Outcome::Done);
    }
    if word == b"rolled-back".as_slice() {
        return Some(Outcome::RolledBack);
    }
    if word == b"lost".as_slice() {
        return Some(Outcome::Lost);
    }
    None
}

/// A number, or `none`.
fn read_cause(text: &[u8]) -> Option<Option<u32>>
    ensures { result ≡ cause_of text.now }
{
    if text == b"none".as_slice() {
        return Some(None);
    }
    let number = read_number(text)?;
    Some(Some(number))
}

/// What follows `pid`.
fn read_noted(text: &[u8]) -> Option<PidNote>
    ensures { result ≡ noted_of text.now }
{
    read_note(behind(text, b"pid")?)
}

/// The cause and the note.
fn read_ending(text: &[u8]) -> Option<(Option<u32>, PidNote)>
    ensures { result ≡ closing_of text.now }
{
    let rest = behind(text, b"cause")?;
    let (cause, rest) = cut(rest, b' ')?;
    let cause = read_cause(cause)?;
    let note = read_noted(rest)?;
    Some((cause, note))
}

/// What follows `degraded`.
fn read_degraded(text: &[u8]) -> Option<(Outcome, (Option<u32>, PidNote))>
    ensures { result ≡ degraded_of text.now }
{
    let (side, rest) = cut(text, b' ')?;
    let side = read_side(side)?;
    let (shortfalls, rest) = cut(rest, b' ')?;
    let shortfalls = read_shortfalls(shortfalls)?;
    let ending = read_ending(rest)?;
    Some((Outcome::Degraded { side, shortfalls }, ending))
}

fn read_other(word: &[u8], rest: &[u8]) -> Option<(Outcome, (Option<u32>, PidNote))>
    ensures { result ≡ plain_report word.now rest.now }
{
    let outcome = read_plain(word)?;
    let ending = read_ending(rest)?;
    Some((outcome, ending))
}

fn read_parts(text: &[u8]) -> Option<(Outcome, (Option<u32>, PidNote))>
    ensures { result ≡ parts_of text.now }
{
    let (word, rest) = cut(text, b' ')?;
    if word == b"degraded".as_slice() {
        read_degraded(rest)
    } else {
        read_other(word, rest)
    }
}

fn read_whole(text: &[u8], ready: &Numbers) -> Option<Report>
    ensures { result ≡ report_in ready.now text.now }
{
    let (outcome, (cause, note)) = read_parts(text)?;
    Some(Report {
        outcome,
        cause,
        note,
        ready: *ready,
    })
}

/// Reads a report as `write_report` writes it, without a newline, and no other text. The text does
/// not say which numbers were ready, so they are handed in. There are 1 to 16 shortfalls, from 0 to
/// 4,294,967,295, and not all 0. A cause is such a number too: no run blames a call 0, so who
/// compares the report with its run finds it wrong. Any bytes may come.
pub fn read_report(text: &[u8], ready: &Numbers) -> Option<Report>
    ensures exact { result ≡ report_in ready.now text.now }
    ensures reads { Reads (IsReport ready.now) report_text text.now result }
{
    read_whole(text, ready)
}
