//! Control words, carried out one after another.
ghost use Rattle.std.specs.Prelude.{◌≡◌, ◌+◌, ◌<◌, ◌++◌, ◌↔◌, ◌⊎◌, ℕ, List, length, slice_get, vec_capacity, vec_len, IfOk, IsErr, OnOk, OnErr};
ghost use Rattle.std.specs.Option.{option_copied};
ghost use Rattle.word_runner.specs.Asking.{AsksTarget};
ghost use Rattle.word_runner.specs.Enactors.{IsTold};
ghost use Rattle.word_runner.specs.Words.{ComesTo, AreDone, WantsMemory};
ghost use Rattle.word_runner.specs.declared.block.Block.{Block as Done};

use crate::asking::{Asked, asked_by, note};
use crate::{Block, Body, CodeText, Enacted, Enactor, Standing, TargetRefusal};
use control_words::Word;
use std::alloc::{AllocError, Global};
use vocabulary::Settings;

/// Carries control words out one after another. `settings` are those of a new configuration.
///
/// Each word puts its block behind `blocks`. A refused word prints its code and changes nothing;
/// once there is no record, each is refused as V1. After a run the record is the one that the
/// report leaves, and the table of workers follows: those that the plan started have not beaten.
/// The only refusal is want of memory: before the first word, where there is no room for all blocks,
/// or where a word's target wants it. It leaves the words before it done, with their blocks, and all
/// else as they left it.
pub fn run_words<E: Enactor>(
    alloc: Global,
    enactor: &E,
    standing: &mut Standing<E::World>,
    words: &[Word],
    settings: Option<&Settings>,
    blocks: &mut Vec<Block>,
) -> Result<(), AllocError>
    ensures done { (done : List Done)
        × (blocks.new.items ≡ blocks.old.items ++ done)
        × AreDone (E.enacts enactor.now) (E.declines enactor.now) (option_copied settings.entry) words.now 0 standing.old done standing.new }
    ensures all { OnOk result (length blocks.new.items ≡ length blocks.old.items + length words.now) }
    ensures due { OnErr result ((n : ℕ)
        × (length blocks.new.items ≡ length blocks.old.items + n)
        × (((n ≡ 0) × (vec_capacity blocks.old < vec_len blocks.old + length words.now))
        ⊎ WantsMemory (E.wants_memory enactor.now) (option_copied settings.entry) (slice_get words.now n) n standing.new)) }
{
    blocks.reserve(words.len())?;
    for (place, word) in words.iter().enumerate() {
        let body = run_word(alloc, enactor, standing, *word, place, settings)?;
        blocks.push_reserved(Block::Heard(*word, body));
    }
    Ok(())
}

/// Carries a word out. Want of memory leaves everything as it was, and comes only where the word
/// asks a running master for a target.
fn run_word<E: Enactor>(
    alloc: Global,
    enactor: &E,
    standing: &mut Standing<E::World>,
    word: Word,
    place: usize,
    settings: Option<&Settings>,
) -> Result<Body, AllocError>
    ensures ok { IfOk result (λ body. ComesTo (E.enacts enactor.now) (E.declines enactor.now) (option_copied settings.entry) word place standing.old body standing.new) }
    ensures err { OnErr result (standing.new ≡ standing.old) }
    ensures due { OnErr result (AsksTarget (E.wants_memory enactor.now standing.old.world place) standing.old.record (option_copied settings.entry) word standing.old.workers) }
{
    let Some(running) = standing.record else {
        return Ok(Body::Refused(CodeText::stopped()));
    };
    let target = match asked_by(word, &running, &standing.workers, settings) {
        Asked::Nothing => return Ok(Body::Nothing),
        Asked::Beat(heard) => return Ok(note(&mut standing.workers, heard)),
        Asked::Refused(code) => return Ok(Body::Refused(code)),
        Asked::Act(target) => target,
    };
    let Enacted { log, report, after } = match enactor.enact(
        alloc,
        &mut standing.world,
        place,
        &running,
        &target,
    ) {
        Ok(enacted) => enacted,
        Err(refusal) => return told(refusal),
    };
    standing.follow(&log, &report, after);
    Ok(Body::Ran(log, report))
}

/// What a refused target comes to: its code is told, and want of memory passed on.
fn told(refusal: TargetRefusal) -> Result<Body, AllocError>
    ensures memory { IsErr result ↔ (refusal ≡ TargetRefusal.Memory) }
    ensures code { IfOk result (IsTold refusal) }
{
    match refusal {
        TargetRefusal::Memory => Err(AllocError),
        TargetRefusal::Coded(code) => Ok(Body::Refused(code)),
    }
}
