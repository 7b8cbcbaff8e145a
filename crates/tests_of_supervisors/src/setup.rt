//! What tests begin with, and what the texts of a supervisor are held against.
use certifier::certify_blocks;
use kernel_model::{Kernel, WIDEST_LIMITS};
use listener_set::Numbers;
use master_on_children::{NextRefusal, NextSettings};
use service_state::Record;
use std::alloc::{AllocError, Global};
use std::test::Fail;
use transcript::read_transcripts;
use vocabulary::{Outcome, Settings};
use word_runner::{Block, Body, Standing};
use worker_table::WorkerTable;

/// Next settings that stay the same.
#[derive(Drop)]
pub(crate) struct Always {
    pub(crate) settings: Settings,
}

impl NextSettings for Always {
    fn read(&mut self) -> Result<Settings, NextRefusal> {
        Ok(self.settings)
    }
}

/// The first tick, where one worker is wanted.
pub(crate) const FIRST_TICK: &[u8] = b"word tick 0\n\
    1 m1 fork 1.1 0 : forked\n\
    2 m1 await-ready 1.1 0 : ready\n\
    3 m1 census 1.1 : counted 0\n\
    done cause none pid no-file\n";

/// How the first master quits, where it has one worker.
pub(crate) const FIRST_QUITS: &[u8] = b"word QUIT\n\
    1 m1 quit 1.1 0 : ok\n\
    2 m1 await-gone 1.1 0 : gone\n\
    3 m1 leave : ok\n\
    done cause none pid no-file\n";

/// Texts one behind the other.
pub(crate) fn joined(alloc: Global, parts: &[&[u8]]) -> Result<Vec<u8>, AllocError> {
    let mut text = Vec::new(alloc);
    for part in parts {
        text.extend_from_slice(part)?;
    }
    Ok(text)
}

/// Texts behind the first tick.
pub(crate) fn ticked(alloc: Global, parts: &[&[u8]]) -> Result<Vec<u8>, AllocError> {
    let rest = joined(alloc, parts)?;
    joined(alloc, &[FIRST_TICK, rest.as_slice()])
}

/// A text so many times.
pub(crate) fn times(alloc: Global, count: u32, text: &[u8]) -> Result<Vec<u8>, AllocError> {
    let mut texts = Vec::new(alloc);
    for _ in 0..count {
        texts.extend_from_slice(text)?;
    }
    Ok(texts)
}

/// A master of these settings that begins without workers, on a modelled kernel.
fn beginning(alloc: Global, settings: &Settings) -> Result<Standing<Kernel>, Fail> {
    let record = Record::start(settings, settings.workers, &Numbers::none(), 100);
    Ok(Standing {
        world: Kernel::boot(alloc, settings, 0, WIDEST_LIMITS)?,
        record: Some(record),
        workers: WorkerTable::new(alloc)?,
    })
}

/// Whether a modelled kernel could have given these blocks to such a master.
pub(crate) fn are_certified(
    alloc: Global,
    settings: &Settings,
    blocks: &[Block],
) -> Result<bool, Fail> {
    let mut standing = beginning(alloc, settings)?;
    Ok(certify_blocks(alloc, &mut standing, &[*settings], blocks).is_ok())
}

/// Whether the master was lost in a block.
fn is_lost(block: &Block) -> bool {
    match block {
        Block::Heard(_, Body::Ran(_, report)) => report.outcome == Outcome::Lost,
        _ => false,
    }
}

/// Whether a text has blocks, and a modelled kernel could have given them to a master of plain settings.
pub(crate) fn could_be(alloc: Global, text: &[u8]) -> Result<bool, Fail> {
    match read_transcripts(alloc, text) {
        Ok(blocks) => are_certified(alloc, &Settings::plain(), &blocks),
        Err(_) => Ok(false),
    }
}

/// The same of the blocks up to one in which the master was lost.
pub(crate) fn could_be_up_to_a_loss(alloc: Global, text: &[u8]) -> Result<bool, Fail> {
    let Ok(mut blocks) = read_transcripts(alloc, text) else {
        return Ok(false);
    };
    if let Some(lost) = blocks.iter().position(is_lost) {
        blocks.truncate(lost);
    }
    are_certified(alloc, &Settings::plain(), &blocks)
}

/// Whether the lines of a log are these.
pub(crate) fn are_lines(lines: &[String], wanted: &[&str]) -> bool {
    lines.len() == wanted.len()
        && lines
            .iter()
            .zip(wanted)
            .all(|(line, text)| line.as_str() == *text)
}
