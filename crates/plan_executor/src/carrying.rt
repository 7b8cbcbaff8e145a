//! A target for which all is ready, carried out.
ghost use Rattle.std.specs.Prelude.{◌≡◌, ◌+◌, ◌≤◌, [], None, length};
ghost use Rattle.definitions.specs.Claims.{refusal_of};
ghost use Rattle.plan_walk.specs.Path.{KeepsPathLaw};
ghost use Rattle.plan_executor.specs.Replays.{Replays};
ghost use Rattle.service_state.specs.Targets.{IsTarget};
ghost use Rattle.handover_text.specs.Reading.{handed_by};
ghost use Rattle.kernel_model.specs.Pattern.{moment_at};
ghost use Rattle.rollback_plan.specs.Plans.{tree_under, length_of, note_of, sides_told, text_of};
ghost use Rattle.plan_executor.specs.Enacted.{IsEnacted};
ghost use Rattle.plan_executor.specs.Prepared.{IsReady};

use crate::enactment::Prepared;
use crate::keeping::ends_as_reported;
use crate::patterned::Patterned;
use crate::succession::record_left;
use kernel_model::{Kernel, Section};
use plan_walk::{Transcript, execute};
use rollback_plan::Plan;
use service_state::Record;
use vocabulary::{Report, Target};
use word_runner::Enacted;

/// Makes the calls of a plan on a kernel in a section: under its pattern, from the first moment on, and by its turns. It
/// writes them down, and takes no memory.
pub(crate) fn run(
    plan: &Plan,
    kernel: &mut Kernel,
    section: &Section,
    log: &mut Transcript,
) -> Report
    requires calls { length_of plan.now ≤ kernel.old.room }
    requires room { length_of plan.now ≤ log.old.room }
    requires empty { log.old.entries ≡ [] }
    ensures path_law { KeepsPathLaw (tree_under plan.now section.now.turns) (note_of plan.now) (sides_told plan.now) log.new.entries result }
    ensures replays { Replays (handed_by (text_of plan.now)) (moment_at section.now.pattern) 0 kernel.old.table log.new.entries kernel.new.table }
    ensures room_left { kernel.new.room + length log.new.entries ≡ kernel.old.room }
{
    let mut calls = Patterned::new(kernel, &section.pattern, plan.text());
    execute(plan, &mut calls, &section.turns, log)
}

/// Carries a plan out on a kernel that has room for it, in a section that spares the executing masters. Nothing can be
/// refused here.
pub(crate) fn carry_out(
    prepared: Prepared,
    kernel: &mut Kernel,
    state: &Record,
    target: &Target,
    section: &Section,
) -> Enacted
    requires target { IsTarget target.now }
    requires ready { IsReady kernel.old state.now target.now prepared.plan prepared.log }
    requires spared { refusal_of state.now target.now section.now.turns (moment_at section.now.pattern) kernel.old.table ≡ None }
    ensures { IsEnacted kernel.old kernel.new state.now target.now section.now.turns (moment_at section.now.pattern) result }
{
    let Prepared { plan, mut log } = prepared;
    let report = run(&plan, kernel, section, &mut log);
    ends_as_reported(target);
    let after = record_left(state, target, &report, kernel);
    Enacted { log, report, after }
}
