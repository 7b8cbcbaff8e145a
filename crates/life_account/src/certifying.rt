//! Blocks, certified one after another, with the account of their life.
ghost use Rattle.std.specs.Prelude.{◌≡◌, ◌<◌, ◌≤◌, ◌+◌, ◌⊎◌, ◌++◌, ◌∷◌, [], vec_capacity, vec_len, length, IfOk, IfErr, OnOk};
ghost use Rattle.std.specs.Option.{option_copied};
ghost use Rattle.service_state.specs.Targets.{IsTarget};
ghost use Rattle.handover_text.specs.Reading.{handed_by};
ghost use Rattle.definitions.specs.Master.{handover_for};
ghost use Rattle.kernel_model.specs.Pattern.{moment_at};
ghost use Rattle.rollback_plan.specs.Plans.{text_of};
ghost use Rattle.certifier.specs.Blocks.{goal_of, IsFault, StopsAtBlock};
ghost use Rattle.mismatches.specs.declared.Mismatch.TheVariants.{Memory};
ghost use Rattle.life_account.specs.Account.{seen_life, stepped, after_run};
ghost use Rattle.life_account.specs.Lived.{IsLived, IsCertifiedLife};
ghost use Rattle.kernel_pattern.specs.declared.section.Section.{Section as Shown};

use crate::following::{WordRun, copy_for, follow_run};
use crate::life::Life;
use crate::opened::TablePlace;
use certifier::{BlockMismatch, certify_block, goals_after};
use kernel_model::{Kernel, Section};
use mismatches::Mismatch;
use plan_executor::plan_of;
use rollback_plan::Plan;
use service_state::Record;
use std::alloc::{AllocError, Global};
use vocabulary::{Settings, Target};
use word_runner::{Asked, Block, Body, Standing, asked_by};

/// The sections that explain blocks, one for each, and the account of their life.
#[derive(Drop)]
pub struct CertifiedLife {
    pub sections: Vec<Section>,
    pub life: Life,
}

/// The plan of a target that was carried out: so there is one, and only memory can be wanted.
fn plan_again(alloc: Global, state: &Record, target: &Target) -> Result<Plan, AllocError>
    requires { IsTarget target.now }
    ensures { IfOk result (λ plan. handed_by (text_of plan) ≡ handover_for state.now target.now) }
{
    match plan_of(alloc, state, target) {
        Ok(plan) => Ok(plan),
        Err(_) => Err(AllocError),
    }
}

/// Adds a run to the account, on a kernel as it was before. Where no master is left, the life is over, and the run is not
/// looked at.
fn add_run(
    run: &WordRun<'_>,
    kernel: &mut Kernel,
    standing: &Standing<Kernel>,
    life: &mut Life,
) -> Result<(), AllocError>
    requires room { length run.now.log.now.entries + length run.now.log.now.entries ≤ kernel.old.room }
    requires counts { run.now.counts ≡ life.old.was_full }
    ensures { OnOk result (seen_life life.new ≡ after_run (record { word = run.now.word; call = length run.now.log.now.entries }) (stepped (handed_by run.now.text.now) (moment_at run.now.pattern.now) 0 kernel.old.table run.now.log.now.entries) standing.now.record standing.now.world.table (seen_life life.old)) }
{
    let Some(after) = standing.record else {
        return Ok(());
    };
    follow_run(run, kernel, &mut life.addresses);
    let place = TablePlace {
        word: run.word,
        call: run.log.len() as u32,
    };
    life.end_word(&after, &standing.world, place)
}

/// Certifies the n-th block, as `certify_block` does, and adds it to the account.
fn certify_lived(
    alloc: Global,
    standing: &mut Standing<Kernel>,
    settings: Option<&Settings>,
    block: &Block,
    number: usize,
    life: &mut Life,
) -> Result<Section, Mismatch>
    ensures ok { IfOk result (λ section. IsLived number (option_copied settings.entry) block.now standing.old (seen_life life.old) section standing.new (seen_life life.new)) }
    ensures err { IfErr result (λ why. (why ≡ Memory) ⊎ IsFault (option_copied settings.entry) block.now standing.old why) }
{
    let Block::Heard(word, body) = block else {
        return certify_block(alloc, standing, settings, block);
    };
    let Body::Ran(log, _) = body else {
        return certify_block(alloc, standing, settings, block);
    };
    let Some(state) = standing.record else {
        return Err(Mismatch::Step(1));
    };
    let Asked::Act(target) = asked_by(*word, &state, &standing.workers, settings) else {
        return Err(Mismatch::Step(1));
    };
    let mut kernel = copy_for(&standing.world, log)?;
    let section = certify_block(alloc, standing, settings, block)?;
    let plan = plan_again(alloc, &state, &target)?;
    let run = WordRun {
        word: number,
        counts: life.was_full,
        text: plan.text(),
        log,
        pattern: &section.pattern,
    };
    add_run(&run, &mut kernel, standing, life)?;
    Ok(section)
}

/// Makes room for the section of one more block.
fn make_room(sections: &mut Vec<Section>) -> Result<(), AllocError>
    ensures items { sections.new.items ≡ sections.old.items }
    ensures room { OnOk result (vec_len sections.new < vec_capacity sections.new) }
{
    sections.reserve(1)
}

/// Certifies a block, and puts its section behind those before.
fn add_block(
    alloc: Global,
    standing: &mut Standing<Kernel>,
    goals: &[Settings],
    block: &Block,
    it: &mut CertifiedLife,
) -> Result<(), Mismatch>
    ensures ok { OnOk result ((section : Shown) × (it.new.sections.items ≡ it.old.sections.items ++ section ∷ []) × IsLived (length it.old.sections.items + 1) (goal_of goals.now) block.now standing.old (seen_life it.old.life) section standing.new (seen_life it.new.life)) }
    ensures err { IfErr result (λ why. (why ≡ Memory) ⊎ IsFault (goal_of goals.now) block.now standing.old why) }
{
    make_room(&mut it.sections)?;
    let number = it.sections.len() + 1;
    let section = certify_lived(alloc, standing, goals.first(), block, number, &mut it.life)?;
    it.sections.push_reserved(section);
    Ok(())
}

/// Certifies blocks one after another, as `certify_blocks` does, and gives beside the sections the account of their life:
/// which addresses were open on one socket in each table of each run, the fewest ready workers of each since the service
/// was first in full, and the words that ended with missing workers, with those that healed them. The tables of a stop do
/// not count. Out of memory may come in place of any answer.
pub fn certify_life(
    alloc: Global,
    standing: &mut Standing<Kernel>,
    goals: &[Settings],
    blocks: &[Block],
) -> Result<CertifiedLife, BlockMismatch>
    ensures ok { IfOk result (IsCertifiedLife goals.now blocks.now standing.old standing.new) }
    ensures err { IfErr result (λ e. (e.why ≡ Memory) ⊎ StopsAtBlock goals.now blocks.now standing.old e.number e.why) }
{
    let Ok(life) = Life::begin(alloc, standing) else {
        return Err(BlockMismatch {
            number: 1,
            why: Mismatch::Memory,
        });
    };
    let mut it = CertifiedLife {
        sections: Vec::new(alloc),
        life,
    };
    let mut left = goals;
    for (place, block) in blocks.iter().enumerate() {
        if let Err(why) = add_block(alloc, standing, left, block, &mut it) {
            let number = place + 1;
            return Err(BlockMismatch { number, why });
        }
        left = goals_after(left, &blocks[place..place + 1]);
    }
    Ok(it)
}
