//! Control words on the modelled kernel.
ghost use Rattle.std.specs.Prelude.{◌≡◌, ◌+◌, ◌<◌, ◌++◌, ◌⊎◌, ℕ, List, [], Some, IfSome, length, slice_get, vec_capacity, vec_len, OnOk, OnErr};
ghost use Rattle.std.specs.Option.{option_copied};
ghost use Rattle.word_runner.specs.Words.{AreDone, WantsMemory};
ghost use Rattle.word_runner.specs.declared.block.Block.{Block as Done};
ghost use Rattle.plan_executor.specs.Words.{quiet_section, section_at, EnactsAt, DeclinesAt, WantsMemoryFor, IsTrueOf};
ghost use Rattle.plan_executor.specs.WordLives.{IsLife};
ghost use Rattle.lives.specs.Lives.{IsStanding};
ghost use Rattle.vocabulary.specs.Settings.{IsInRange};
ghost use Rattle.definitions.specs.Master.{Record as Known};

use crate::enact;
use control_words::Word;
use kernel_model::{Kernel, Section};
use service_state::Record;
use std::alloc::{AllocError, Global};
use vocabulary::{Settings, Target};
use word_runner::{Block, Enacted, Enactor, Standing, TargetRefusal};

/// What carries targets out on the modelled kernel: that of the i-th word in the i-th section, and
/// in a quiet one where there is none.
#[derive(Clone, Copy)]
struct OnKernel<'a> {
    sections: &'a [Section],
    quiet: &'a Section,
    ghost is_quiet: { quiet.now ≡ quiet_section },
}

impl Enactor for OnKernel<'_> {
    type World = Kernel;

    ghost enacts = { λ it. EnactsAt it.sections.now };

    ghost declines = { λ it. DeclinesAt it.sections.now };

    ghost wants_memory = { λ _. WantsMemoryFor };

    fn enact(
        &self,
        alloc: Global,
        world: &mut Kernel,
        place: usize,
        state: &Record,
        target: &Target,
    ) -> Result<Enacted, TargetRefusal> {
        let section = section_at(self.sections, self.quiet, place);
        match enact(alloc, world, state, target, section) {
            Ok(enacted) => Ok(enacted),
            Err(refusal) => Err(TargetRefusal::from(refusal)),
        }
    }
}

/// The section at a place, and the quiet one where there is none.
fn section_at<'a>(sections: &'a [Section], quiet: &'a Section, place: usize) -> &'a Section
    requires { quiet.now ≡ quiet_section }
    ensures { result.now ≡ section_at sections.now place }
{
    sections.get(place).unwrap_or(quiet)
}

/// Carries control words out one after another on the modelled kernel, the i-th in the i-th
/// section, and in a quiet one where there is none. `settings` are those of a new configuration.
///
/// Each word puts its block behind `blocks`. A refused word prints its code and changes nothing;
/// once there is no record, each is refused as V1. After a run the record is the one that the
/// report leaves, and the table of workers follows: those that the plan started have not beaten.
/// The only refusal is want of memory: before the first word, where there is no room for all blocks,
/// or where a word's target wants it. It leaves the words before it done, with their blocks, and all
/// else as they left it.
pub fn run_words(
    alloc: Global,
    standing: &mut Standing<Kernel>,
    words: &[Word],
    sections: &[Section],
    settings: Option<&Settings>,
    blocks: &mut Vec<Block>,
) -> Result<(), AllocError>
    ensures done { (done : List Done)
        × (blocks.new.items ≡ blocks.old.items ++ done)
        × AreDone (EnactsAt sections.now) (DeclinesAt sections.now) (option_copied settings.entry) words.now 0 standing.old done standing.new }
    ensures all { OnOk result (length blocks.new.items ≡ length blocks.old.items + length words.now) }
    ensures due { OnErr result ((n : ℕ)
        × (length blocks.new.items ≡ length blocks.old.items + n)
        × (((n ≡ 0) × (vec_capacity blocks.old < vec_len blocks.old + length words.now))
        ⊎ WantsMemory WantsMemoryFor (option_copied settings.entry) (slice_get words.now n) n standing.new)) }
    ensures life { (r : Known) → IfSome (option_copied settings.entry) IsInRange → standing.old.record ≡ Some r → IsStanding standing.old.world.table r
        → (done : List Done) × (blocks.new.items ≡ blocks.old.items ++ done) × IsLife standing.old standing.new r done }
    ensures agrees { IsTrueOf standing.old.world.table standing.old.record → IsTrueOf standing.new.world.table standing.new.record }
{
    let quiet = Section::new(alloc);
    let enactor = OnKernel {
        sections,
        quiet: &quiet,
    };
    word_runner::run_words(alloc, &enactor, standing, words, settings, blocks)
}
