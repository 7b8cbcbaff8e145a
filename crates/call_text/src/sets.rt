//! Texts of sets of numbers.
ghost use Rattle.std.specs.Prelude.{◌≡◌, ◌<◌, ◌≤◌, ◌+◌, ◌-◌, ◌++◌, [], length, IfOk, IfSome, option_map};
ghost use Rattle.std.specs.List.{slice_split};
ghost use Rattle.listener_set.specs.Numbers.{AreNumbers};
ghost use Rattle.plain_text.specs.Kept.{kept};
ghost use Rattle.call_text.specs.SetText.{run_text, set_text};
ghost use Rattle.call_text.specs.Reads.{Reads};
ghost use Rattle.call_text.specs.SetReading.{is_comma, with_run, several_of, run_in, begun, with_part, with_parts, numbers_in, set_of};

use crate::parts::read_worker_number;
use listener_set::{Numbers, WORKER_LIMIT};
use plain_text::{Sink, cut, write_number};

/// A run of numbers: one number, or the first and the last of several.
#[tactic(auto, using(plain_text::proofs::KeptTexts::kept_on))]
fn write_run<S: Sink>(out: &mut S, first: u32, last: u32) -> Result<(), S::Refusal>
    ensures { IfOk result (λ _. S.text out.new ≡ kept S.most (S.text out.old ++ run_text first last)) }
{
    write_number(out, u64::from(first))?;
    if first == last {
        return Ok(());
    }
    out.put(b"-")?;
    write_number(out, u64::from(last))
}

/// Puts a set of numbers behind what was written: its maximal runs in ascending order, joined by
/// commas, or `none`.
#[tactic(auto, using(plain_text::proofs::KeptTexts::three_on, crate::proofs::ShortTexts::set_short))]
pub fn write_set<S: Sink>(out: &mut S, numbers: &Numbers) -> Result<(), S::Refusal>
    ensures text { IfOk result (λ _. S.text out.new ≡ kept S.most (S.text out.old ++ set_text numbers.now)) }
    ensures short { length (set_text numbers.now) ≤ 3588 }
{
    let mut members = numbers.iter();
    let Some(lowest) = members.next() else {
        return out.put(b"none");
    };
    let mut first = lowest;
    let mut last = lowest;
    for number in members {
        if number.checked_sub(1) != Some(last) {
            write_run(out, first, last)?;
            out.put(b",")?;
            first = number;
        }
        last = number;
    }
    write_run(out, first, last)
}

/// Several numbers: the first and a higher last one.
fn read_several(first: &[u8], last: &[u8]) -> Option<(u32, u32)>
    ensures exact { result ≡ several_of first.now last.now }
    ensures within { IfSome result (λ r. r.1 < WORKER_LIMIT) }
{
    let first = read_worker_number(first)?;
    let last = read_worker_number(last)?;
    if first < last {
        Some((first, last))
    } else {
        None
    }
}

/// The first and the last number of a run.
fn read_run(text: &[u8]) -> Option<(u32, u32)>
    ensures exact { result ≡ run_in text.now }
    ensures within { IfSome result (λ r. r.1 < WORKER_LIMIT) }
{
    match cut(text, b'-') {
        Some((first, last)) => read_several(first, last),
        None => {
            let number = read_worker_number(text)?;
            Some((number, number))
        }
    }
}

/// Puts the numbers from the first to the last in.
#[tactic(auto, using(crate::proofs::Runs::with_run_next, crate::proofs::Runs::with_run_over))]
fn add_run(numbers: &mut Numbers, first: u32, last: u32)
    requires { last < WORKER_LIMIT }
    ensures { numbers.new ≡ with_run numbers.old first (last + 1 - first) }
{
    for nr in first..last + 1 {
        numbers.add(nr);
    }
}

/// What was read of a set.
#[derive(Drop)]
struct SetReader {
    numbers: Numbers,
    /// The least number that the next run can begin with, or else it would touch the one before.
    least: u32,
}

impl SetReader {
    fn new() -> Self
        ensures { result ≡ begun }
    {
        SetReader {
            numbers: Numbers::none(),
            least: 0,
        }
    }

    /// Takes a run in.
    fn take(self, run: &[u8]) -> Option<Self>
        ensures { result ≡ with_part self run.now }
    {
        let (first, last) = read_run(run)?;
        if first < self.least {
            return None;
        }
        let mut numbers = self.numbers;
        add_run(&mut numbers, first, last);
        Some(SetReader {
            numbers,
            least: last + 2,
        })
    }
}

/// Reads the runs of a text, of which there are at most 512.
#[tactic(auto, using(crate::proofs::SetTexts::parts_none, crate::proofs::SetTexts::parts_some, plain_text::proofs::CutTexts::cut_shorter))]
fn read_runs(reader: SetReader, text: &[u8]) -> Option<Numbers>
    ensures { result ≡ option_map numbers_in (with_parts reader (slice_split is_comma text.now)) }
{
    match cut(text, b',') {
        None => {
            let reader = reader.take(text)?;
            Some(reader.numbers)
        }
        Some((run, rest)) => {
            let reader = reader.take(run)?;
            read_runs(reader, rest)
        }
    }
}

pub(crate) fn read_numbers(text: &[u8]) -> Option<Numbers>
    ensures { result ≡ set_of text.now }
{
    if text == b"none".as_slice() {
        return Some(Numbers::none());
    }
    read_runs(SetReader::new(), text)
}

/// Reads a set of numbers below 1024 as `write_set` writes it, and no other text. Any bytes may come.
pub fn read_set(text: &[u8]) -> Option<Numbers>
    ensures exact { result ≡ set_of text.now }
    ensures reads { Reads (λ ns. AreNumbers 1024 ns) set_text text.now result }
{
    read_numbers(text)
}
