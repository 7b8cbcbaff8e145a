//! Sections, written.
ghost use Rattle.std.specs.Prelude.{◌≡◌, ◌≢◌, ◌≤◌, ◌++◌, [], map, Ok, IfOk, IfSome, slice_get};
ghost use Rattle.std.specs.List.{AllByRecursion};
ghost use Rattle.kernel_pattern.specs.Pattern.{seen_moment, IsPattern, IsNameWithin, AreNamesWithin};
ghost use Rattle.call_text.specs.Ranges.{IsName};
ghost use Rattle.pattern_text.specs.PatternsText.{patterns_of};
ghost use Rattle.pattern_text.specs.Courses.{course_of};
ghost use Rattle.pattern_text.specs.PatternsWriting.{ended_line, event_text, exits_text, moment_text, moments_text, section_text, patterns_text};
ghost use Rattle.pattern_text.specs.Written.{IsNoted, AreMoments, IsSection};

use crate::PatternLine;
use crate::turns_line::write_turns;
use kernel_pattern::{Moment, Pattern, Section};
use std::alloc::{AllocError, Global};
use vocabulary::Name;

/// A line for an exit before the call with this number. The numbers of a name that comes by value have 32 bits.
fn write_exit(out: &mut Vec<u8>, number: u32, name: Name) -> Result<(), AllocError>
    requires { IsNameWithin name }
    ensures text { IfOk result (λ _. out.new.items ≡ out.old.items ++ ended_line (PatternLine.Exit number name)) }
    ensures name { IsName name }
{
    PatternLine::Exit(number, name).write(out)
}

/// A line for each exit before the call with this number.
fn write_exits(out: &mut Vec<u8>, number: u32, exits: &[Name]) -> Result<(), AllocError>
    requires { AreNamesWithin exits.now }
    ensures text { IfOk result (λ _. out.new.items ≡ out.old.items ++ exits_text number exits.now) }
    ensures names { IfOk result (λ _. AllByRecursion IsName exits.now) }
{
    for name in exits {
        write_exit(out, number, *name)?;
    }
    Ok(())
}

/// The lines of a moment: its exits in order, and then its fate.
fn write_moment(out: &mut Vec<u8>, number: u32, moment: &Moment<'_>) -> Result<(), AllocError>
    requires number { 1 ≤ number }
    requires within { AreNamesWithin moment.now.exits.now }
    ensures text { IfOk result (λ _. out.new.items ≡ out.old.items ++ moment_text number (seen_moment moment.now)) }
    ensures noted { IfOk result (λ _. IsNoted (number, seen_moment moment.now)) }
{
    write_exits(out, number, moment.exits)?;
    if let Some(fate) = moment.fate {
        PatternLine::Fail(number, fate).write(out)?;
    }
    Ok(())
}

/// The lines of the moment at a place of a pattern, where there is one.
fn write_event(out: &mut Vec<u8>, pattern: &Pattern, place: usize) -> Result<(), AllocError>
    requires { IsPattern pattern.now }
    ensures text { IfOk result (λ _. out.new.items ≡ out.old.items ++ event_text (slice_get pattern.now place)) }
    ensures noted { IfOk result (λ _. IfSome (slice_get pattern.now place) IsNoted) }
{
    match pattern.entry(place) {
        Some((number, moment)) => write_moment(out, number, &moment),
        None => Ok(()),
    }
}

/// The lines of a pattern.
#[tactic(auto, using(crate::proofs::Sections::section_at))]
fn write_moments(out: &mut Vec<u8>, pattern: &Pattern) -> Result<(), AllocError>
    ensures text { IfOk result (λ _. out.new.items ≡ out.old.items ++ moments_text pattern.now) }
    ensures moments { IfOk result (λ _. AreMoments pattern.now) }
{
    for place in 0..pattern.len() {
        write_event(out, pattern, place)?;
    }
    Ok(())
}

/// The lines of a section: its turns, where it has any, and those of its pattern.
fn write_section(out: &mut Vec<u8>, section: &Section) -> Result<(), AllocError>
    ensures text { IfOk result (λ _. out.new.items ≡ out.old.items ++ section_text section.now) }
    ensures section { IfOk result (λ _. IsSection section.now) }
{
    write_turns(out, &section.turns)?;
    write_moments(out, &section.pattern)
}

/// The text of sections: the lines of each, its turns first and then its moments in ascending numbers, and a line `next`
/// between two. What is written of one section or more is read again as these. The only refusal is out of memory.
pub fn write_patterns(alloc: Global, sections: &[Section]) -> Result<Vec<u8>, AllocError>
    ensures exact { IfOk result (λ out. out.items ≡ patterns_text sections.now) }
    ensures again { IfOk result (λ out. sections.now ≢ [] → patterns_of out.items ≡ Ok (map course_of sections.now)) }
{
    let mut out = Vec::new(alloc);
    for (place, section) in sections.iter().enumerate() {
        if place > 0 {
            PatternLine::Next.write(&mut out)?;
        }
        write_section(&mut out, section)?;
    }
    Ok(out)
}
