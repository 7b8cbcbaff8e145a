//! Runs, as they are listed.
ghost use Rattle.std.specs.Prelude.{◌≡◌, ◌++◌, IfOk};
ghost use Rattle.exploration_text.specs.RunText.{events_text, run_text};

use crate::events::write_line;
use call_text::write_report;
use explorer::Tried;
use pattern_text::write_turns;
use plan_turns::Turns;
use std::alloc::AllocError;
use vocabulary::Report;

/// A line for each event, in the order of the run.
fn write_events(out: &mut Vec<u8>, tried: &Tried) -> Result<(), AllocError>
    ensures { IfOk result (λ _. out.new.items ≡ out.old.items ++ events_text tried.now) }
{
    match tried {
        Tried::Nothing => Ok(()),
        Tried::One(event) => write_line(out, event),
        Tried::Two(first, second) => {
            write_line(out, first)?;
            write_line(out, second)
        }
    }
}

/// Appends a run: the line of its turns, where there are any, a line for each of its events, and the line of its report. It
/// fails only where memory is refused.
pub fn write_run(
    out: &mut Vec<u8>,
    turns: &Turns,
    tried: &Tried,
    report: &Report,
) -> Result<(), AllocError>
    ensures { IfOk result (λ _. out.new.items ≡ out.old.items ++ run_text turns.now tried.now report.now) }
{
    write_turns(out, turns)?;
    write_events(out, tried)?;
    write_report(out, report)?;
    out.extend_from_slice(b"\n")
}
