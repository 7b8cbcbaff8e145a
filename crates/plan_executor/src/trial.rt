//! Whether a section spares the executing masters.
ghost use Rattle.std.specs.Prelude.{◌≡◌, ◌⊎◌, [], None, OnOk, IfErr};
ghost use Rattle.definitions.specs.Claims.{refusal_of};
ghost use Rattle.definitions.specs.Master.{Agrees};
ghost use Rattle.kernel_model.specs.Pattern.{moment_at};
ghost use Rattle.kernel_model.specs.Room.{LacksNumbers};
ghost use Rattle.rollback_plan.specs.Plans.{length_of};
ghost use Rattle.plan_executor.specs.Prepared.{IsPlanFor};
ghost use Rattle.plan_executor.specs.Refusals.{IsRefused};

use crate::carrying::run;
use crate::enactment::{EnactRefusal, reserved_copy};
use crate::naming::refused_among;
use crate::succession::heir_of;
use kernel_model::{Kernel, Section};
use plan_walk::Transcript;
use rollback_plan::Plan;
use service_state::Record;
use std::alloc::Global;
use vocabulary::Target;

/// Refuses a section in which an executing master exits, with the first such moment of the run: E4. One whose pattern
/// names no master spares them; any other is tried on a copy of the kernel, for which E5 and E1 may come first.
pub(crate) fn spare(
    alloc: Global,
    kernel: &Kernel,
    state: &Record,
    target: &Target,
    section: &Section,
    plan: &Plan,
) -> Result<(), EnactRefusal>
    requires agrees { Agrees kernel.now.table state.now }
    requires plan { IsPlanFor state.now target.now plan.now }
    ensures spared { OnOk result (refusal_of state.now target.now section.now.turns (moment_at section.now.pattern) kernel.now.table ≡ None) }
    ensures refused { IfErr result (λ why. (why ≡ EnactRefusal.Memory) ⊎ IsRefused kernel.now.table state.now target.now section.now.turns (moment_at section.now.pattern) why) }
{
    if !section.pattern.names_master() {
        return Ok(());
    }
    let mut copy = reserved_copy(kernel, plan.longest())?;
    let mut log = Transcript::with_room(alloc, plan.longest())?;
    spare_on(&mut copy, state, target, section, plan, &mut log)
}

/// Runs the plan, and refuses a section in which an executing master exits. It takes no memory, so that E4 is its
/// only refusal.
fn spare_on(
    copy: &mut Kernel,
    state: &Record,
    target: &Target,
    section: &Section,
    plan: &Plan,
    log: &mut Transcript,
) -> Result<(), EnactRefusal>
    requires agrees { Agrees copy.old.table state.now }
    requires plan { IsPlanFor state.now target.now plan.now }
    requires numbers { LacksNumbers copy.old.table (length_of plan.now) → ⊥ }
    requires room { copy.old.room ≡ length_of plan.now }
    requires empty { log.old ≡ record { entries = []; room = length_of plan.now } }
    ensures spared { OnOk result (refusal_of state.now target.now section.now.turns (moment_at section.now.pattern) copy.old.table ≡ None) }
    ensures refused { IfErr result (IsRefused copy.old.table state.now target.now section.now.turns (moment_at section.now.pattern)) }
{
    run(plan, copy, section, log);
    let heir = heir_of(state, target);
    match refused_among(&section.pattern, state.generation.image, heir, log) {
        Some(moment) => Err(EnactRefusal::MasterNamed(moment)),
        None => Ok(()),
    }
}
