//! What goes wrong in a run, as lines of a pattern.
ghost use Rattle.std.specs.Prelude.{◌≡◌, ◌++◌, IfOk};
ghost use Rattle.pattern_text.specs.PatternsWriting.{ended_line};
ghost use Rattle.exploration_text.specs.RunText.{event_line, event_text};

use explorer::{Event, Mishap};
use pattern_text::PatternLine;
use std::alloc::AllocError;

fn event_line(event: &Event) -> PatternLine
    ensures { result ≡ event_line event.now }
{
    match event.mishap {
        Mishap::Exit(name, _) => PatternLine::Exit(event.number, name),
        Mishap::Fail(fate) => PatternLine::Fail(event.number, fate),
    }
}

/// An event, as a line of a pattern.
pub(crate) fn write_line(out: &mut Vec<u8>, event: &Event) -> Result<(), AllocError>
    ensures { IfOk result (λ _. out.new.items ≡ out.old.items ++ ended_line (event_line event.now)) }
{
    event_line(event).write(out)
}

/// The same without a newline.
pub(crate) fn write_event(out: &mut Vec<u8>, event: &Event) -> Result<(), AllocError>
    ensures { IfOk result (λ _. out.new.items ≡ out.old.items ++ event_text event.now) }
{
    write_line(out, event)?;
    let _newline = out.pop();
    Ok(())
}
