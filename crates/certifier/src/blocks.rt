//! Blocks, compared one after another with plans and kernel.
ghost use Rattle.std.specs.Prelude.{⊤, ◌≡◌, ◌<◌, ◌⊎◌, ◌↔◌, [], vec_capacity, vec_len, IfOk, IfErr, OnOk, OnErr, IsErrOf};
ghost use Rattle.std.specs.Option.{option_copied};
ghost use Rattle.word_runner.specs.Asking.{IsPossible, IsActOn};
ghost use Rattle.certifier.specs.Blocks.{asked_at, goal_of, goals_after, goals_then, goes_over, later_goals, IsIdle, IsFollowed, IsTaken, IsRunFaultOf, IsFault, AreTaken, StopsAtBlock, LeadsUpTo};
ghost use Rattle.plan_executor.specs.Words.{quiet_section};
ghost use Rattle.mismatches.specs.declared.Mismatch.{Mismatch as Why};

use crate::certification::certificate;
use control_words::Word;
use kernel_model::{Kernel, Section};
use mismatches::Mismatch;
use plan_executor::record_left;
use plan_walk::Transcript;
use service_state::Record;
use std::alloc::{AllocError, Global};
use vocabulary::{Report, Settings};
use word_runner::{Asked, Block, Body, Standing, asked_by, note};
use worker_table::WorkerTable;

/// The first block that is none of the master's, counted from 1, and why.
#[derive(Clone, Copy, Debug, PartialEq, Eq)]
pub struct BlockMismatch {
    pub number: usize,
    pub why: Mismatch,
}

/// Compares blocks one after another, each from where the ones before it left things, and gives the sections that
/// explain them, one for each. Then things stand where the last block leaves them. The first that is none of the
/// master's is the mismatch, and things stand where the blocks before it leave them.
///
/// Each HUP and USR2 that was carried out goes over to the next of the goals, and all after the last one to that.
pub fn certify_blocks(
    alloc: Global,
    standing: &mut Standing<Kernel>,
    goals: &[Settings],
    blocks: &[Block],
) -> Result<Vec<Section>, BlockMismatch>
    ensures ok { IfOk result (λ sections. AreTaken goals.now blocks.now standing.old sections.items standing.new) }
    ensures err { IfErr result (λ e. StopsAtBlock goals.now blocks.now standing.old e.number e.why) }
    ensures stands { IfErr result (λ e. LeadsUpTo goals.now blocks.now standing.old e.number standing.new) }
{
    let mut sections = Vec::new(alloc);
    let mut left = goals;
    for (place, block) in blocks.iter().enumerate() {
        let number = place + 1;
        make_room(&mut sections, number)?;
        match certify_block(alloc, standing, goal_of(left), block) {
            Ok(section) => sections.push_reserved(section),
            Err(why) => return Err(BlockMismatch { number, why }),
        }
        left = goals_then(block, left);
    }
    Ok(sections)
}

/// The goal of the next word.
fn goal_of(goals: &[Settings]) -> Option<&Settings>
    ensures { option_copied result ≡ goal_of goals.now }
{
    goals.first()
}

/// The goals that are left after blocks.
pub fn goals_after<'a>(goals: &'a [Settings], blocks: &[Block]) -> &'a [Settings]
    ensures { result.now ≡ goals_after blocks.now goals.now }
{
    let mut left = goals;
    for block in blocks {
        left = goals_then(block, left);
    }
    left
}

/// The goals that are left after a block.
fn goals_then<'a>(block: &Block, goals: &'a [Settings]) -> &'a [Settings]
    ensures { result.now ≡ goals_then block.now goals.now }
{
    if goes_over(block) {
        later_goals(goals)
    } else {
        goals
    }
}

/// All goals but the first, unless that is the last one.
fn later_goals(goals: &[Settings]) -> &[Settings]
    ensures { result.now ≡ later_goals goals.now }
{
    if goals.len() > 1 { &goals[1..] } else { goals }
}

/// Whether a word can go over to other settings, and was carried out.
fn goes_over(block: &Block) -> bool
    ensures { result ≡ goes_over block.now }
{
    match block {
        Block::Heard(word, Body::Ran(..)) => {
            matches!(*word, Word::Hup | Word::Usr2 | Word::Usr2Attended)
        }
        _ => false,
    }
}

/// Makes room for the section of the block with this number.
fn make_room(sections: &mut Vec<Section>, number: usize) -> Result<(), BlockMismatch>
    ensures items { sections.new.items ≡ sections.old.items }
    ensures room { OnOk result (vec_len sections.new < vec_capacity sections.new) }
    ensures err { IfErr result (λ e. e ≡ record { number = number; why = Mismatch.Memory }) }
{
    match sections.reserve(1) {
        Ok(()) => Ok(()),
        Err(_) => Err(BlockMismatch {
            number,
            why: Mismatch::Memory,
        }),
    }
}

/// The section that explains a block, from where things stand; then they stand where the block leaves them. A block of
/// an unread line or of a refused word changes nothing, and is taken as it is. Mismatches: those of `certify`; Y3 for
/// `nothing` where the word asks for a target; Y1 1 for calls where it asks for none. They change nothing.
pub fn certify_block(
    alloc: Global,
    standing: &mut Standing<Kernel>,
    settings: Option<&Settings>,
    block: &Block,
) -> Result<Section, Mismatch>
    ensures ok { IfOk result (λ section. IsTaken (option_copied settings.entry) block.now standing.old section standing.new) }
    ensures exact { (why : Why)
        → IsErrOf result Mismatch.Memory ⊎ (IsErrOf result why ↔ IsFault (option_copied settings.entry) block.now standing.old why) }
    ensures err { OnErr result (standing.new ≡ standing.old) }
{
    match block {
        Block::Unread(_) => Ok(Section::new(alloc)),
        Block::Heard(word, body) => match body {
            Body::Nothing => {
                let asked = asked_at(*word, standing.record.as_ref(), &standing.workers, settings);
                certify_nothing(alloc, standing, asked)
            }
            Body::Refused(_) => Ok(Section::new(alloc)),
            Body::Ran(log, report) => certify_run(alloc, standing, settings, *word, log, report),
        },
    }
}

/// What a word asks of the master; nothing where it has stopped.
fn asked_at(
    word: Word,
    state: Option<&Record>,
    workers: &WorkerTable,
    settings: Option<&Settings>,
) -> Asked
    ensures exact { result ≡ asked_at (option_copied settings.entry) word (option_copied state.entry) workers.now }
    ensures possible { IsPossible result }
{
    match state {
        Some(record) => asked_by(word, record, workers, settings),
        None => Asked::Nothing,
    }
}

/// A word came to nothing. One with a target does not; a beat is noted, whatever the table says of it.
fn certify_nothing(
    alloc: Global,
    standing: &mut Standing<Kernel>,
    asked: Asked,
) -> Result<Section, Mismatch>
    ensures ok { IfOk result (λ section. (section ≡ quiet_section) × IsIdle asked standing.old standing.new) }
    ensures err { (why : Why) → IsErrOf result why ↔ ((why ≡ Mismatch.Short) × IsActOn (λ _. ⊤) asked) }
    ensures same { OnErr result (standing.new ≡ standing.old) }
{
    match asked {
        Asked::Act(_) => Err(Mismatch::Short),
        Asked::Beat(heard) => {
            let _ = note(&mut standing.workers, heard);
            Ok(Section::new(alloc))
        }
        Asked::Nothing => Ok(Section::new(alloc)),
        Asked::Refused(_) => Ok(Section::new(alloc)),
    }
}

/// A word came to calls and a report. The kernel on which they were replayed is as the word leaves it.
fn certify_run(
    alloc: Global,
    standing: &mut Standing<Kernel>,
    settings: Option<&Settings>,
    word: Word,
    log: &Transcript,
    report: &Report,
) -> Result<Section, Mismatch>
    ensures ok { IfOk result (λ section. IsFollowed (option_copied settings.entry) word log.now.entries report.now standing.old section standing.new) }
    ensures exact { (why : Why)
        → IsErrOf result Mismatch.Memory ⊎ (IsErrOf result why ↔ IsRunFaultOf standing.old.record (option_copied settings.entry) word standing.old log.now.entries report.now why) }
    ensures err { OnErr result (standing.new ≡ standing.old) }
{
    let Some(running) = standing.record else {
        return Err(Mismatch::Step(1));
    };
    let Asked::Act(target) = asked_by(word, &running, &standing.workers, settings) else {
        return Err(Mismatch::Step(1));
    };
    let certificate = certificate(alloc, &standing.world, &running, &target, log, report)?;
    let after = record_left(&running, &target, report, &certificate.kernel);
    standing.world = certificate.kernel;
    standing.follow(log, report, after);
    Ok(certificate.section)
}
