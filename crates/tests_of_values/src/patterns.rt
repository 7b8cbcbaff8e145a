//! Turns, as they are written in patterns and where they are refused.
use kernel_pattern::Section;
use pattern_text::{read_patterns, write_patterns};
use std::alloc::Global;
use std::test::Fail;
use vocabulary::{Fate, Turn};

/// A section with these turns, in which the first call fails.
fn section_with(alloc: Global, turns: &[Turn]) -> Result<Section, Fail> {
    let mut section = Section::new(alloc);
    for turn in turns {
        section.turns.add(*turn)?;
    }
    section.pattern.set_fate(1, Fate::Again)?;
    Ok(section)
}

/// Three sections: with turns of both masters, with none, and with one.
fn three_sections(alloc: Global) -> Result<Vec<Section>, Fail> {
    let mut sections = Vec::new(alloc);
    for turns in [
        [Turn::New, Turn::Old, Turn::Old].as_slice(),
        &[],
        &[Turn::Old],
    ] {
        sections.push(section_with(alloc, turns)?)?;
    }
    Ok(sections)
}

/// How they are written.
const THREE_SECTIONS: &[u8] =
    b"turns noo\n1 fail again\nnext\n1 fail again\nnext\nturns o\n1 fail again\n";

#[test]
fn turns_are_written_as_the_first_line_of_their_section(rt: HostRuntime) -> Result<(), Fail> {
    let sections = three_sections(rt.alloc())?;
    let text = write_patterns(rt.alloc(), &sections)?;
    assert!(rt; text.as_slice() == THREE_SECTIONS);
    Ok(())
}

#[test]
fn turns_are_refused_elsewhere_and_in_another_form(rt: HostRuntime) -> Result<(), Fail> {
    for (text, refusal) in [
        ("turns", "X1 1"),
        ("turns ", "X1 1"),
        ("turns nx", "X1 1"),
        ("turns n o", "X1 1"),
        ("turns N", "X1 1"),
        ("turns n ", "X1 1"),
        ("turns n\nturns o\n", "X2 2"),
        ("1 fail again\nturns n\n", "X2 2"),
        ("1 fail again\nturns x\n", "X1 2"),
        ("next\nturns n\n2 exit m2\nturns o", "X2 4"),
    ] {
        let Err(refused) = read_patterns(rt.alloc(), text.as_bytes()) else {
            return Err(Fail::from("such a text is read"));
        };
        let told = format!(in rt.alloc(); "{refused}")?;
        assert!(rt; told.as_str() == refusal, "{text}");
    }
    Ok(())
}
