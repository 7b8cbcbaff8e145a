//! Texts of shortfalls.
ghost use Rattle.std.specs.Prelude.{◌≡◌, ◌++◌, [], IfOk};
ghost use Rattle.std.specs.List.{slice_split};
ghost use Rattle.call_text.specs.SetReading.{is_comma};
ghost use Rattle.call_text.specs.ReportText.{shortfalls_text};
ghost use Rattle.call_text.specs.ReportReading.{with_count, with_counts, counts_of, shortfalls_of};

use plain_text::{cut, read_number, write_number};
use std::alloc::AllocError;
use worker_groups::Shortfalls;

/// Puts a number for each group behind what was written, joined by commas.
#[tactic(auto, using(crate::proofs::ShortfallTexts::shortfalls_written))]
pub(crate) fn write_shortfalls(out: &mut Vec<u8>, shortfalls: &Shortfalls) -> Result<(), AllocError>
    ensures { IfOk result (λ _. out.new.items ≡ out.old.items ++ shortfalls_text shortfalls.now) }
{
    let [first, others @ ..] = shortfalls.as_slice() else {
        return Ok(());
    };
    write_number(out, u64::from(*first))?;
    for count in others {
        out.extend_from_slice(b",")?;
        write_number(out, u64::from(*count))?;
    }
    Ok(())
}

/// Takes a number in, unless there are 16 already.
fn with_count(mut shortfalls: Shortfalls, text: &[u8]) -> Option<Shortfalls>
    ensures { result ≡ with_count shortfalls text.now }
{
    let count = read_number(text)?;
    if shortfalls.add(count) {
        Some(shortfalls)
    } else {
        None
    }
}

/// Takes the numbers of a text in.
#[tactic(auto, using(crate::proofs::SetTexts::parts_none, crate::proofs::SetTexts::parts_some, plain_text::proofs::CutTexts::cut_shorter))]
fn with_counts(shortfalls: Shortfalls, text: &[u8]) -> Option<Shortfalls>
    ensures { result ≡ with_counts shortfalls (slice_split is_comma text.now) }
{
    match cut(text, b',') {
        None => {
            let shortfalls = with_count(shortfalls, text)?;
            Some(shortfalls)
        }
        Some((count, rest)) => {
            let shortfalls = with_count(shortfalls, count)?;
            with_counts(shortfalls, rest)
        }
    }
}

/// A number alone.
fn first_count(text: &[u8]) -> Option<Shortfalls>
    ensures { result ≡ with_count [] text.now }
{
    let count = read_number(text)?;
    Some(Shortfalls::one(count))
}

/// From 1 to 16 numbers.
#[tactic(auto, using(crate::proofs::SetTexts::parts_none, crate::proofs::SetTexts::parts_some))]
fn read_counts(text: &[u8]) -> Option<Shortfalls>
    ensures { result ≡ counts_of text.now }
{
    match cut(text, b',') {
        None => {
            let shortfalls = first_count(text)?;
            Some(shortfalls)
        }
        Some((first, rest)) => {
            let shortfalls = first_count(first)?;
            with_counts(shortfalls, rest)
        }
    }
}

/// From 1 to 16 numbers that are not all 0.
pub(crate) fn read_shortfalls(text: &[u8]) -> Option<Shortfalls>
    ensures { result ≡ shortfalls_of text.now }
{
    let shortfalls = read_counts(text)?;
    if shortfalls.total() > 0 {
        Some(shortfalls)
    } else {
        None
    }
}
