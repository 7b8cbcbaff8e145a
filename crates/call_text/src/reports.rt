//! Texts of reports and of the calls that were made.
ghost use Rattle.std.specs.Prelude.{◌≡◌, ◌++◌, IfOk};
ghost use Rattle.call_text.specs.ReportText.{outcome_text, cause_text, report_text, entry_text};

use crate::answers::put_answer;
use crate::calls::put_call;
use crate::shortfalls::write_shortfalls;
use crate::words::{note_text, side_text};
use plain_text::write_number;
use std::alloc::AllocError;
use vocabulary::{Entry, Outcome, Report};

fn write_outcome(out: &mut Vec<u8>, outcome: &Outcome) -> Result<(), AllocError>
    ensures { IfOk result (λ _. out.new.items ≡ out.old.items ++ outcome_text outcome.now) }
{
    match outcome {
        Outcome::Done => out.extend_from_slice(b"done"),
        Outcome::RolledBack => out.extend_from_slice(b"rolled-back"),
        Outcome::Degraded { side, shortfalls } => {
            out.extend_from_slice(b"degraded ")?;
            out.extend_from_slice(side_text(*side).as_bytes())?;
            out.extend_from_slice(b" ")?;
            write_shortfalls(out, shortfalls)
        }
        Outcome::Lost => out.extend_from_slice(b"lost"),
    }
}

fn write_cause(out: &mut Vec<u8>, cause: Option<u32>) -> Result<(), AllocError>
    ensures { IfOk result (λ _. out.new.items ≡ out.old.items ++ cause_text cause) }
{
    match cause {
        None => out.extend_from_slice(b"none"),
        Some(number) => write_number(out, u64::from(number)),
    }
}

/// Puts a report behind what was written, without a newline: how the run ended, its first call that
/// went wrong, and where the pid file stands. The only refusal is want of memory.
pub fn write_report(out: &mut Vec<u8>, report: &Report) -> Result<(), AllocError>
    ensures { IfOk result (λ _. out.new.items ≡ out.old.items ++ report_text report.now) }
{
    write_outcome(out, &report.outcome)?;
    out.extend_from_slice(b" cause ")?;
    write_cause(out, report.cause)?;
    out.extend_from_slice(b" pid ")?;
    out.extend_from_slice(note_text(report.note).as_bytes())
}

/// Puts the line of the n-th call of a block behind what was written. The only refusal is want of memory.
pub fn write_entry(out: &mut Vec<u8>, number: u64, entry: &Entry) -> Result<(), AllocError>
    ensures { IfOk result (λ _. out.new.items ≡ out.old.items ++ entry_text number entry.now) }
{
    write_number(out, number)?;
    out.extend_from_slice(b" ")?;
    put_call(out, entry.by, &entry.call)?;
    out.extend_from_slice(b" : ")?;
    put_answer(out, &entry.answer)?;
    out.extend_from_slice(b"\n")
}
