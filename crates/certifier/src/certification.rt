//! A transcript, held against the modelled kernel.
ghost use Rattle.std.specs.Prelude.{◌≡◌, ◌+◌, ◌⊎◌, ◌↔◌, length, IfOk, IfErr, IsErrOf};
ghost use Rattle.service_state.specs.Targets.{IsTarget};
ghost use Rattle.handover_text.specs.Reading.{handed_by};
ghost use Rattle.rollback_plan.specs.Plans.{length_of, sides_told, text_of};
ghost use Rattle.plan_executor.specs.Naming.{listed};
ghost use Rattle.plan_executor.specs.Refusals.{IsPlannable};
ghost use Rattle.certifier.specs.Places.{planned_start, HasTaken, StopsBy};
ghost use Rattle.certifier.specs.Explained.{IsMismatch};
ghost use Rattle.certifier.specs.Certified.{IsCertified, HasEnacted, EnactsSo, IsFaultyRun};
ghost use Rattle.mismatches.specs.declared.Mismatch.{Mismatch as Why};

use crate::replay::{Certificate, Replay};
use kernel_model::{Kernel, Section};
use mismatches::Mismatch;
use plan_executor::{agrees, ends_as_reported, heir_of, plan_of, reserved_copy};
use plan_walk::Transcript;
use rollback_plan::Plan;
use service_state::Record;
use std::alloc::Global;
use vocabulary::{Report, Target};

/// Replays all entries of a plan from its start, on a kernel with room for its longest path; the first entry that can't
/// stand there is a mismatch.
pub(crate) fn replay_all<'a>(
    alloc: Global,
    plan: &'a Plan,
    kernel: Kernel,
    image: u32,
    heir: Option<u32>,
    log: &Transcript,
) -> Result<Replay<'a>, Mismatch>
    requires { kernel.room ≡ length_of plan.now }
    ensures ok { IfOk result (HasTaken (handed_by (text_of plan.now)) (listed heir) (sides_told plan.now) (planned_start plan.now kernel.table image) log.now.entries) }
    ensures err { IfErr result (StopsBy (handed_by (text_of plan.now)) (listed heir) (planned_start plan.now kernel.table image) log.now.entries) }
    ensures left { IfOk result (λ replay. replay.kernel.room + length log.now.entries ≡ length_of plan.now) }
{
    let mut replay = Replay::new(alloc, plan, kernel, image, heir);
    for place in 0..log.len() {
        if !replay.take(&log.get(place))? {
            return Err(Mismatch::Step(place + 1));
        }
    }
    Ok(replay)
}

/// The certificate of a transcript, as `certify` gives its section: in it the target was carried out on this kernel, which
/// the run leaves as the certificate's.
pub(crate) fn certificate(
    alloc: Global,
    kernel: &Kernel,
    state: &Record,
    target: &Target,
    log: &Transcript,
    report: &Report,
) -> Result<Certificate, Mismatch>
    requires { IsTarget target.now }
    ensures ok { IfOk result (HasEnacted kernel.now state.now target.now log.now.entries report.now) }
    ensures exact { (why : Why)
        → IsErrOf result Mismatch.Memory ⊎ (IsErrOf result why ↔ IsMismatch kernel.now.table state.now target.now log.now.entries report.now why) }
    ensures complete { IsFaultyRun kernel.now.table state.now target.now log.now.entries report.now
        → IfErr result (λ why. (why ≡ Mismatch.Refused) ⊎ (why ≡ Mismatch.Memory)) }
    ensures memory { IsErrOf result Mismatch.Memory → IsPlannable kernel.now.table state.now target.now }
{
    if !agrees(state, kernel) {
        return Err(Mismatch::Refused);
    }
    let plan = plan_of(alloc, state, target)?;
    let copy = reserved_copy(kernel, plan.longest())?;
    let heir = heir_of(state, target);
    ends_as_reported(target);
    let replay = replay_all(alloc, &plan, copy, state.generation.image, heir, log)?;
    replay.end(report)
}

/// Holds a transcript of a target, its calls with their answers and its report, against the modelled kernel.
///
/// A yes is the section that the transcript shows. Its pattern has an exit at the entry that shows it, and a fate where
/// the answer is a fault that the kernel would not give by itself. Its turns are those that the entries use, without
/// those of the new master at the end, so no list of turns that leads to these entries is shorter. In this section the
/// run of the target's plan on this kernel is exactly these entries with this report, and no executing master exits.
/// Mismatches in their order: Y4 the target can't be carried out; Y1 the first entry that can't stand there, whatever
/// the turns are; Y3 the plan isn't at an end; Y2 the report is another. What a run by any turns and under faults alone
/// made is never refused by Y1, Y2 or Y3.
pub fn certify(
    alloc: Global,
    kernel: &Kernel,
    state: &Record,
    target: &Target,
    log: &Transcript,
    report: &Report,
) -> Result<Section, Mismatch>
    requires { IsTarget target.now }
    ensures ok { IfOk result (IsCertified kernel.now.table state.now target.now log.now.entries report.now) }
    ensures exact { (why : Why)
        → IsErrOf result Mismatch.Memory ⊎ (IsErrOf result why ↔ IsMismatch kernel.now.table state.now target.now log.now.entries report.now why) }
    ensures enacts { IfOk result (EnactsSo kernel.now state.now target.now log.now.entries report.now) }
    ensures complete { IsFaultyRun kernel.now.table state.now target.now log.now.entries report.now
        → IfErr result (λ why. (why ≡ Mismatch.Refused) ⊎ (why ≡ Mismatch.Memory)) }
    ensures memory { IsErrOf result Mismatch.Memory → IsPlannable kernel.now.table state.now target.now }
{
    match certificate(alloc, kernel, state, target, log, report) {
        Ok(certificate) => Ok(certificate.section),
        Err(why) => Err(why),
    }
}
