//! How a run would have gone on where a block is none of the master's.
use crate::{Rehearsal, StartSetup, begin, read_goals};
use certifier::goals_after;
use faults::Fault;
use mismatches::Mismatch;
use plan_walk::Transcript;
use std::alloc::{AllocError, Global};
use std::rt::Files;
use transcript::{read_transcripts, write_transcript};
use vocabulary::Settings;
use word_runner::{Block, Body};

/// The line that a master would have had in the block with a number, from 1, of a text, where the first is that is not its
/// own. None where the block is no block of a word.
pub fn line_instead<R: AllocGlobal + Files>(
    rt: &R,
    setup: &StartSetup<'_>,
    goals: &[&str],
    held: Option<&str>,
    text: &[u8],
    (number, mismatch): (usize, &Mismatch),
) -> Result<Option<Vec<u8>>, Fault> {
    let alloc = rt.alloc();
    let blocks = read_transcripts(alloc, text).map_err(Fault::of_transcript)?;
    let Some(Block::Heard(word, body)) = blocks.get(number.wrapping_sub(1)) else {
        return Ok(None);
    };
    let mut rehearsal = begin(rt, setup, held)?;
    let goals = read_goals(rt, rehearsal.next, goals)?;
    if !goes_up_to(
        alloc,
        &mut rehearsal,
        goals.as_slice(),
        &blocks[..number.wrapping_sub(1)],
    ) {
        return Ok(None);
    }
    let begun = beginning(alloc, body, mismatch)?;
    let Some(block) = rehearsal.go_on(alloc, *word, &begun)? else {
        return Ok(None);
    };
    line_behind(alloc, &block, begun.len())
}

/// Carries blocks out, and lets the next word go over to the goal that is left then; whether they are the master's.
fn goes_up_to(
    alloc: Global,
    rehearsal: &mut Rehearsal,
    goals: &[Settings],
    blocks: &[Block],
) -> bool {
    if let Some(next) = goals_after(goals, blocks).first() {
        rehearsal.next = *next;
    }
    rehearsal.certify(alloc, goals, blocks).is_ok()
}

/// The calls of a block before the first that is not the master's.
fn beginning(alloc: Global, body: &Body, mismatch: &Mismatch) -> Result<Transcript, AllocError> {
    let mut begun = Transcript::with_room(alloc, 0)?;
    let Body::Ran(log, _) = body else {
        return Ok(begun);
    };
    let count = match mismatch {
        Mismatch::Step(number) => log.len().min(number.wrapping_sub(1)),
        _ => log.len(),
    };
    for place in 0..count {
        begun.add(&log.get(place))?;
    }
    Ok(begun)
}

/// The line of a block behind that of the word and so many others, or else the last.
fn line_behind(alloc: Global, block: &Block, count: usize) -> Result<Option<Vec<u8>>, Fault> {
    let text = write_transcript(alloc, block)?;
    let mut lines = text
        .split(|byte| *byte == b'\n')
        .filter(|line| !line.is_empty());
    match lines.nth(count.wrapping_add(1)) {
        Some(line) => Ok(Some(line.to_vec(alloc)?)),
        None => Ok(None),
    }
}
