//! A target, planned and carried out on the modelled kernel.
ghost use Rattle.std.specs.Prelude.{◌≡◌, ◌≤◌, ◌↔◌, ◌⊎◌, ℕ, List, None, OnOk, OnErr, IfOk, IfErr, IsErrOf, IsTrue};
ghost use Rattle.definitions.specs.Claims.{refusal_of};
ghost use Rattle.definitions.specs.Table.{IsFormed};
ghost use Rattle.definitions.specs.Master.{Agrees};
ghost use Rattle.definitions.specs.Plans.{Turn, plan_tree};
ghost use Rattle.call_laws.specs.Lengths.{plan_length};
ghost use Rattle.definitions.specs.Master.{handover_for, sides_of};
ghost use Rattle.service_state.specs.Targets.{IsTarget, lacks_generation};
ghost use Rattle.kernel_model.specs.Pattern.{moment_at};
ghost use Rattle.kernel_model.specs.Room.{LacksNumbers};
ghost use Rattle.rollback_plan.specs.Plans.{tree_under, length_of, note_of, sides_told, text_of};
ghost use Rattle.reload_planner.specs.declared.refusal.PlanRefusal.{PlanRefusal as Unplannable};
ghost use Rattle.plan_executor.specs.Beside.{AreProper, EndByName, EndInPeace, IsDoneInQuiet, LeavesFilesOfOthers, LeavesRecord, LivesBelow, ObeysOperator};
ghost use Rattle.plan_executor.specs.Enacted.{IsEnacted};
ghost use Rattle.plan_executor.specs.Prepared.{IsReady};
ghost use Rattle.plan_executor.specs.Survived.{IsSurvived};
ghost use Rattle.handover_text.specs.Reading.{Hands};
ghost use Rattle.plan_executor.specs.Refusals.{HasPlan, HasNoPlan, IsPlannable, IsRefused};
ghost use Rattle.plan_executor.specs.declared.enactment.EnactRefusal.{EnactRefusal as Refusal};

use crate::agreement::agrees;
use crate::carrying::carry_out;
use crate::trial::spare;
use kernel_model::{Kernel, ReserveRefusal, Section};
use plan_walk::Transcript;
use reload_planner::PlanRefusal;
use rollback_plan::Plan;
use service_state::Record;
use std::alloc::{AllocError, Global};
use vocabulary::Target;
use word_runner::Enacted;

/// Why a target is not carried out.
#[derive(Clone, Copy, Debug, PartialEq, Eq)]
pub enum EnactRefusal {
    /// E1: memory was refused before the first call.
    Memory,
    /// E2: the record does not agree with the kernel.
    RecordDisagrees,
    /// E3: the target has no plan, with the planner's refusal.
    Plan(PlanRefusal),
    /// E4: the pattern kills an executing master at this moment of the run.
    MasterNamed(u32),
    /// E5: fewer process or socket numbers are left than the plan's longest path has steps.
    NoNumbers,
}

impl From<AllocError> for EnactRefusal {
    ghost use Rattle.plan_executor.specs.declared.enactment.EnactRefusal.TheVariants.{Memory};

    ghost from_gives = { λ _ e. e ≡ Memory };

    fn from(_error: AllocError) -> EnactRefusal {
        EnactRefusal::Memory
    }
}

impl From<ReserveRefusal> for EnactRefusal {
    ghost use Rattle.plan_executor.specs.Refusals.{without_room};

    ghost from_gives = { λ refusal e. e ≡ without_room refusal };

    fn from(refusal: ReserveRefusal) -> EnactRefusal {
        match refusal {
            ReserveRefusal::NoNumbers => EnactRefusal::NoNumbers,
            ReserveRefusal::Memory => EnactRefusal::Memory,
        }
    }
}

/// Plans a target for a running state and carries the plan out on the modelled kernel in a section: under its pattern of
/// failing calls and exits, and by its turns, where two masters have parts of the plan.
///
/// All memory is taken before the first call: a refusal leaves the kernel as it was. Refusals in
/// their order: E2 the record disagrees with the kernel; E3 there is no plan, with the planner's own
/// refusal; E5 fewer process or socket numbers are left than the plan's longest path has steps; E4 a
/// moment of the run kills an executing master, and the first such is named: the master of the
/// record up to its Leave, and the new one of an upgrade from that Leave on. E1 may come in place of
/// the last two, and never where E2 or E3 is due. After a run the kernel has room for as many calls
/// as the longest path has steps, less those that were made, and the record is that of the master
/// that reigns then.
pub fn enact(
    alloc: Global,
    kernel: &mut Kernel,
    state: &Record,
    target: &Target,
    section: &Section,
) -> Result<Enacted, EnactRefusal>
    requires { IsTarget target.now }
    ensures ok { IfOk result (IsEnacted kernel.old kernel.new state.now target.now section.now.turns (moment_at section.now.pattern)) }
    ensures disagrees { IsErrOf result EnactRefusal.RecordDisagrees ↔ (Agrees kernel.old.table state.now → ⊥) }
    ensures exact { (why : Refusal)
        → IsErrOf result EnactRefusal.Memory ⊎ (IsErrOf result why ↔ IsRefused kernel.old.table state.now target.now section.now.turns (moment_at section.now.pattern) why) }
    ensures memory { IsErrOf result EnactRefusal.Memory → IsPlannable kernel.old.table state.now target.now }
    ensures survived { (moment : ℕ) → IsErrOf result (EnactRefusal.MasterNamed moment) → IsSurvived kernel.old.table state.now target.now section.now.turns (moment_at section.now.pattern) }
    ensures quiet { IfOk result (IsDoneInQuiet kernel.old.table kernel.new.table state.now target.now section.now.pattern) }
    ensures proper { IfOk result (AreProper state.now target.now) }
    ensures files { OnOk result (LeavesFilesOfOthers state.now kernel.old.table kernel.new.table) }
    ensures left { IfOk result (LeavesRecord state.now target.now) }
    ensures named { OnOk result (EndByName kernel.old.table state.now target.now section.now.turns (moment_at section.now.pattern)) }
    ensures peace { OnOk result (EndInPeace kernel.old.table state.now target.now section.now.turns (moment_at section.now.pattern)) }
    ensures ceiling { OnOk result (LivesBelow kernel.old.table state.now target.now section.now.turns (moment_at section.now.pattern)) }
    ensures obeyed { IfOk result (ObeysOperator target.now) }
    ensures err { OnErr result (kernel.new ≡ kernel.old) }
{
    let prepared = prepare(alloc, kernel, state, target, section)?;
    Ok(carry_out(prepared, kernel, state, target, section))
}

/// All that carrying a target out needs beside a kernel with room for as many calls as the plan's longest path has steps:
/// the plan, and a log with room for as many.
#[derive(Drop)]
pub(crate) struct Prepared {
    pub(crate) plan: Plan,
    pub(crate) log: Transcript,
}

/// Makes ready all that carrying a target out needs. Memory is taken here and nowhere after; the kernel's room, which is
/// all that changes of it, is reserved last.
fn prepare(
    alloc: Global,
    kernel: &mut Kernel,
    state: &Record,
    target: &Target,
    section: &Section,
) -> Result<Prepared, EnactRefusal>
    requires { IsTarget target.now }
    ensures ready { IfOk result (λ p. IsReady kernel.new state.now target.now p.plan p.log) }
    ensures table { OnOk result (kernel.new.table ≡ kernel.old.table) }
    ensures spared { OnOk result (refusal_of state.now target.now section.now.turns (moment_at section.now.pattern) kernel.old.table ≡ None) }
    ensures disagrees { IsErrOf result EnactRefusal.RecordDisagrees ↔ (Agrees kernel.old.table state.now → ⊥) }
    ensures refused { IfErr result (λ why. (why ≡ EnactRefusal.Memory) ⊎ IsRefused kernel.old.table state.now target.now section.now.turns (moment_at section.now.pattern) why) }
    ensures memory { IsErrOf result EnactRefusal.Memory → IsPlannable kernel.old.table state.now target.now }
    ensures err { OnErr result (kernel.new ≡ kernel.old) }
{
    if !agrees(state, kernel) {
        return Err(EnactRefusal::RecordDisagrees);
    }
    let plan = plan_of(alloc, state, target)?;
    spare(alloc, kernel, state, target, section, &plan)?;
    let log = Transcript::with_room(alloc, plan.longest())?;
    reserve(kernel, plan.longest())?;
    Ok(Prepared { plan, log })
}

/// The plan of a target. Want of memory is told only where nothing else is refused.
pub fn plan_of(alloc: Global, state: &Record, target: &Target) -> Result<Plan, EnactRefusal>
    requires { IsTarget target.now }
    ensures planned { IfOk result (λ _. HasPlan state.now target.now) }
    ensures tree { IfOk result (λ plan. (turns : List Turn) → tree_under plan turns ≡ plan_tree state.now target.now turns) }
    ensures longest { IfOk result (λ plan. length_of plan ≡ plan_length state.now target.now) }
    ensures note { IfOk result (λ plan. note_of plan ≡ state.now.note) }
    ensures sides { IfOk result (λ plan. sides_told plan ≡ sides_of state.now target.now) }
    ensures text { IfOk result (λ plan. Hands (text_of plan) (handover_for state.now target.now)) }
    ensures refused { IfErr result (λ why.
        (why ≡ EnactRefusal.Memory) ⊎ ((refusal : Unplannable) × (why ≡ EnactRefusal.Plan refusal) × HasNoPlan state.now target.now refusal)) }
    ensures numbered { IsErrOf result (EnactRefusal.Plan Unplannable.NoGeneration) ↔ IsTrue (lacks_generation state.now target.now) }
{
    match upgrade_planner::plan_target(alloc, state, target) {
        Ok(plan) => Ok(plan),
        Err(PlanRefusal::Memory) => Err(EnactRefusal::Memory),
        Err(refusal) => Err(EnactRefusal::Plan(refusal)),
    }
}

/// A copy of a kernel with room for so many calls. Whether numbers are lacking is asked first, so that want of memory is
/// told only where they are not.
pub fn reserved_copy(kernel: &Kernel, calls: u32) -> Result<Kernel, EnactRefusal>
    ensures same { IfOk result (λ k. k ≡ record { table = kernel.now.table; room = calls }) }
    ensures formed { IfOk result (λ _. IsFormed kernel.now.table) }
    ensures descriptors { IfOk result (λ _. kernel.now.table.limits.descriptors ≤ 64) }
    ensures numbers { IfOk result (λ _. LacksNumbers kernel.now.table calls → ⊥) }
    ensures refused { IfErr result (λ why.
        (why ≡ EnactRefusal.Memory) ⊎ ((why ≡ EnactRefusal.NoNumbers) × LacksNumbers kernel.now.table calls)) }
    ensures exact { IsErrOf result EnactRefusal.NoNumbers ↔ LacksNumbers kernel.now.table calls }
{
    Ok(kernel.copy(calls)?)
}

/// Reserves room for so many calls, no more and no fewer.
fn reserve(kernel: &mut Kernel, calls: u32) -> Result<(), EnactRefusal>
    ensures ok { OnOk result (kernel.new ≡ record { table = kernel.old.table; room = calls }) }
    ensures formed { IsFormed kernel.old.table }
    ensures descriptors { kernel.old.table.limits.descriptors ≤ 64 }
    ensures numbers { OnOk result (LacksNumbers kernel.old.table calls → ⊥) }
    ensures refused { IfErr result (λ why.
        (why ≡ EnactRefusal.Memory) ⊎ ((why ≡ EnactRefusal.NoNumbers) × LacksNumbers kernel.old.table calls)) }
    ensures exact { IsErrOf result EnactRefusal.NoNumbers ↔ LacksNumbers kernel.old.table calls }
    ensures err { OnErr result (kernel.new ≡ kernel.old) }
{
    kernel.set_room(calls)?;
    Ok(())
}
