//! Blocks, as `enact` answers.
use crate::values::{line_of, number_in, parted, some_text, text_of};
use serde::Serialize;
use std::alloc::{AllocError, Global};

/// All blocks, and the lines of the table of `--state`.
#[derive(Drop, Serialize)]
struct BlocksAnswer<'a> {
    blocks: Vec<BlockValue<'a>>,
    state: Vec<&'a str>,
}

#[derive(Drop, Serialize)]
struct BlockValue<'a> {
    word: &'a str,
    outcome: &'a str,
    code: Option<&'a str>,
    side: Option<&'a str>,
    short: Vec<u64>,
    cause: Option<u64>,
    pid: Option<&'a str>,
    calls: Vec<CallValue<'a>>,
}

#[derive(Clone, Copy, Serialize)]
struct CallValue<'a> {
    number: u64,
    master: u64,
    call: &'a str,
    answer: &'a str,
}

/// Blocks as JSON.
pub fn blocks_json(alloc: Global, answer: &[u8]) -> Result<Vec<u8>, AllocError> {
    let mut value = BlocksAnswer {
        blocks: Vec::new(alloc),
        state: Vec::new(alloc),
    };
    for line in text_of(answer).lines() {
        add_line(alloc, &mut value, line)?;
    }
    line_of(alloc, &value)
}

/// Takes the next line of an answer: it begins a block, belongs to the last one, or is one of the table.
fn add_line<'a>(
    alloc: Global,
    value: &mut BlocksAnswer<'a>,
    line: &'a str,
) -> Result<(), AllocError> {
    if let Some(word) = line.strip_prefix("word ") {
        let block = begun(alloc, word);
        return Ok(value.blocks.push(block).map_err(AllocError::from)?);
    }
    if is_of_state(line) {
        return Ok(value.state.push(line).map_err(AllocError::from)?);
    }
    match value.blocks.last_mut() {
        Some(block) => add_to_block(block, line),
        None => Ok(()),
    }
}

fn is_of_state(line: &str) -> bool {
    matches!(parted(line, " ").0, "process" | "file" | "service")
}

/// A block of which only the word is known.
fn begun(alloc: Global, word: &str) -> BlockValue<'_> {
    BlockValue {
        word,
        outcome: "",
        code: None,
        side: None,
        short: Vec::new(alloc),
        cause: None,
        pid: None,
        calls: Vec::new(alloc),
    }
}

/// Takes a line of a block: a call, or what came of the word.
fn add_to_block<'a>(block: &mut BlockValue<'a>, line: &'a str) -> Result<(), AllocError> {
    if line.starts_with(|letter: char| letter.is_ascii_digit()) {
        return Ok(block.calls.push(call_of(line)).map_err(AllocError::from)?);
    }
    let (ended, note) = parted(line, " pid ");
    let (ended, cause) = parted(ended, " cause ");
    let (outcome, rest) = parted(ended, " ");
    block.outcome = outcome;
    block.pid = some_text(note);
    block.cause = match cause {
        "" | "none" => None,
        number => Some(number_in(number)),
    };
    if outcome == "refused" {
        block.code = some_text(rest);
        return Ok(());
    }
    let (side, counts) = parted(rest, " ");
    block.side = some_text(side);
    add_counts(&mut block.short, counts)
}

/// How many workers each group lacks.
fn add_counts(short: &mut Vec<u64>, counts: &str) -> Result<(), AllocError> {
    for count in counts.split(',') {
        if !count.is_empty() {
            short.push(number_in(count)).map_err(AllocError::from)?;
        }
    }
    Ok(())
}

/// `N mI CALL : ANSWER`
fn call_of(line: &str) -> CallValue<'_> {
    let (made, answer) = parted(line, " : ");
    let (number, rest) = parted(made, " ");
    let (master, call) = parted(rest, " ");
    CallValue {
        number: number_in(number),
        master: number_in(master.strip_prefix("m").unwrap_or("")),
        call,
        answer,
    }
}
