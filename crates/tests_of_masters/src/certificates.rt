//! Certificates: what a run came to, compared with the modelled kernel.
ghost use Rattle.std.specs.Prelude.{◌≤◌};

use crate::setup::with_two_workers;
use certifier::{BlockMismatch, Mismatch, certify, certify_blocks};
use control_words::Word;
use kernel_model::{Kernel, Section};
use listener_set::Numbers;
use plan_executor::{enact, run_words};
use service_state::Record;
use std::alloc::Global;
use std::test::Fail;
use vocabulary::{Settings, Target};
use word_runner::{Block, Enacted, Standing};
use worker_table::WorkerTable;

/// A kernel with a master, whose process number is 100, and two workers.
fn booted(alloc: Global) -> Result<Kernel, Fail> {
    with_two_workers(alloc, &Settings::plain(), 65_535)
}

/// What a master with two workers and that process number knows.
fn known(pid: u32) -> Record
    requires { 1 ≤ pid }
{
    Record::start(&Settings::plain(), 2, &Numbers::below(2), pid)
}

/// Whether no fault and no turn explains a run.
fn is_quiet(section: &Section) -> bool {
    section.pattern.is_empty() && section.turns.is_empty()
}

/// The run by which such a master, whose process number is 100, starts a third worker.
fn third_started(alloc: Global) -> Result<Enacted, Fail> {
    let mut kernel = booted(alloc)?;
    let quiet = Section::new(alloc);
    Ok(enact(alloc, &mut kernel, &known(100), &Target::Workers(3), &quiet)?)
}

/// The section that explains such a run of a master that knew this.
fn explained_to(
    alloc: Global,
    state: &Record,
    done: &Enacted,
) -> Result<Result<Section, Mismatch>, Fail> {
    let kernel = booted(alloc)?;
    Ok(certify(
        alloc,
        &kernel,
        state,
        &Target::Workers(3),
        &done.log,
        &done.report,
    ))
}

#[test]
fn a_certificate_wants_the_masters_own_number(rt: HostRuntime) -> Result<(), Fail> {
    let alloc = rt.alloc();
    let done = third_started(alloc)?;
    let own = explained_to(alloc, &known(100), &done)??;
    assert!(rt; is_quiet(&own));
    let other = explained_to(alloc, &known(101), &done)?;
    assert!(rt; matches!(other, Err(Mismatch::Refused)));
    Ok(())
}

/// Where a master stands that runs with two workers.
fn standing(alloc: Global) -> Result<Standing<Kernel>, Fail> {
    Ok(Standing {
        world: booted(alloc)?,
        record: Some(known(100)),
        workers: WorkerTable::new(alloc)?,
    })
}

/// The blocks of two TTIN.
fn grown(alloc: Global) -> Result<Vec<Block>, Fail> {
    let mut blocks = Vec::new(alloc);
    run_words(
        alloc,
        &mut standing(alloc)?,
        &[Word::Ttin, Word::Ttin],
        &[],
        None,
        &mut blocks,
    )?;
    Ok(blocks)
}

/// The sections that explain blocks, from the start on.
fn explained(alloc: Global, blocks: &[Block]) -> Result<Result<Vec<Section>, BlockMismatch>, Fail> {
    Ok(certify_blocks(alloc, &mut standing(alloc)?, &[], blocks))
}

#[test]
fn each_block_is_compared_from_where_the_last_one_led(rt: HostRuntime) -> Result<(), Fail> {
    let blocks = grown(rt.alloc())?;
    let Ok(sections) = explained(rt.alloc(), &blocks)? else {
        return Err(Fail::from("own blocks are refused"));
    };
    assert_eq!(rt; sections.len(), 2);
    assert!(rt; sections.iter().all(|section| section.pattern.is_empty()));
    Ok(())
}

#[test]
fn a_second_block_is_not_taken_first(rt: HostRuntime) -> Result<(), Fail> {
    let blocks = grown(rt.alloc())?;
    let Some((_, behind)) = blocks.split_first() else {
        return Err(Fail::from("two words have no block"));
    };
    let Err(mismatch) = explained(rt.alloc(), behind)? else {
        return Err(Fail::from("the second block is taken first"));
    };
    assert_eq!(rt; mismatch.number, 1);
    assert!(rt; mismatch.why == Mismatch::Step(1));
    Ok(())
}
