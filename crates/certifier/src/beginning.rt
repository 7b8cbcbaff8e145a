//! The beginning of a run, held against the modelled kernel.
ghost use Rattle.std.specs.Prelude.{◌≡◌, ◌⊎◌, ◌↔◌, IfOk, IfErr, IsErrOf};
ghost use Rattle.service_state.specs.Targets.{IsTarget};
ghost use Rattle.kernel_pattern.specs.declared.section.Section.{Section as Shown};
ghost use Rattle.plan_executor.specs.Refusals.{IsPlannable};
ghost use Rattle.certifier.specs.Explained.{IsNoBeginning};
ghost use Rattle.certifier.specs.Certified.{IsBeginning};
ghost use Rattle.mismatches.specs.declared.Mismatch.{Mismatch as Why};

use crate::certification::replay_all;
use kernel_model::{Kernel, Section};
use mismatches::Mismatch;
use plan_executor::{agrees, heir_of, plan_of, reserved_copy};
use plan_walk::Transcript;
use service_state::Record;
use std::alloc::Global;
use vocabulary::Target;

/// Holds the beginning of a run of a target, its first calls with their answers, against the modelled kernel.
///
/// A yes is the section that the calls show: in it the run of the target's plan on this kernel begins with them, and no
/// list of turns that leads to them is shorter. Mismatches in their order, as those of `certify`: Y4 the target can't be carried out; Y1 the first entry that can't
/// stand there.
pub fn certify_beginning(
    alloc: Global,
    kernel: &Kernel,
    state: &Record,
    target: &Target,
    log: &Transcript,
) -> Result<Section, Mismatch>
    requires { IsTarget target.now }
    ensures ok { IfOk result (IsBeginning kernel.now.table state.now target.now log.now.entries) }
    ensures exact { (why : Why)
        → IsErrOf result Mismatch.Memory ⊎ (IsErrOf result why ↔ IsNoBeginning kernel.now.table state.now target.now log.now.entries why) }
    ensures complete { (section : Shown) → IsBeginning kernel.now.table state.now target.now log.now.entries section
        → IfErr result (λ why. why ≡ Mismatch.Memory) }
    ensures memory { IsErrOf result Mismatch.Memory → IsPlannable kernel.now.table state.now target.now }
{
    if !agrees(state, kernel) {
        return Err(Mismatch::Refused);
    }
    let plan = plan_of(alloc, state, target)?;
    let copy = reserved_copy(kernel, plan.longest())?;
    let heir = heir_of(state, target);
    let replay = replay_all(alloc, &plan, copy, state.generation.image, heir, log)?;
    Ok(replay.shown())
}
