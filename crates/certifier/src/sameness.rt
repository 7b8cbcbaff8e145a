//! Whether two calls, answers or reports are the same.
ghost use Rattle.std.specs.Prelude.{◌≡◌, ◌↔◌, IsTrue};

use listener_set::Numbers;
use vocabulary::{Answer, Call, Outcome, PidNote, Report};

pub(crate) fn is_same_call(call: &Call, other: &Call) -> bool
    ensures { IsTrue result ↔ (call.now ≡ other.now) }
{
    call == other
}

pub(crate) fn is_same_answer(answer: &Answer, other: &Answer) -> bool
    ensures { IsTrue result ↔ (answer.now ≡ other.now) }
{
    answer == other
}

fn is_same_outcome(outcome: &Outcome, other: &Outcome) -> bool
    ensures { IsTrue result ↔ (outcome.now ≡ other.now) }
{
    outcome == other
}

fn is_same_cause(cause: Option<u32>, other: Option<u32>) -> bool
    ensures { IsTrue result ↔ (cause ≡ other) }
{
    cause == other
}

fn is_same_note(note: PidNote, other: PidNote) -> bool
    ensures { IsTrue result ↔ (note ≡ other) }
{
    note == other
}

fn are_same_numbers(numbers: &Numbers, others: &Numbers) -> bool
    ensures { IsTrue result ↔ (numbers.now ≡ others.now) }
{
    numbers == others
}

pub(crate) fn is_same_report(report: &Report, other: &Report) -> bool
    ensures { IsTrue result ↔ (report.now ≡ other.now) }
{
    is_same_outcome(&report.outcome, &other.outcome)
        && is_same_cause(report.cause, other.cause)
        && is_same_note(report.note, other.note)
        && are_same_numbers(&report.ready, &other.ready)
}
