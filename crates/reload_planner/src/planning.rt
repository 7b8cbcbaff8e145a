//! The plan of a target.
ghost use Rattle.std.specs.Prelude.{◌≡◌, ◌≤◌, ◌↔◌, List, [], None, length, IfOk, IsErrOf, IsTrue};
ghost use Rattle.definitions.specs.Master.{sides_of};
ghost use Rattle.service_state.specs.Targets.{IsTarget, lacks_generation};
ghost use Rattle.definitions.specs.Plans.{Turn, plan_tree};
ghost use Rattle.call_laws.specs.Lengths.{plan_length};
ghost use Rattle.rollback_plan.specs.Plans.{tree_under, length_of, parts_of, note_of, sides_told, text_of, trees_in};
ghost use Rattle.reload_planner.specs.Planning.{most_steps, is_apart};

use crate::{PlanRefusal, Scene, plan_mend, plan_reload, plan_reopen, plan_stop, plan_workers};
use rollback_plan::Plan;
use service_state::{Record, next_image};
use std::alloc::Global;
use vocabulary::{Actor, Target};

/// Plans a target for a running master: what it does, and what it does instead where a call fails.
///
/// `NoGeneration` (P3) exactly where a number of the target's generation would pass 4,294,967,295: the
/// configuration of a reload or an upgrade, or the image of an upgrade. `Unplanned` (P2) exactly for
/// every other upgrade, which is planned apart. No plan is too large: with `n` workers that are ready
/// or wanted before and after, and `a` addresses before and after, it has at most
/// `9 n + 3 a + 16 retries + 48` steps.
pub fn plan(alloc: Global, state: &Record, target: &Target) -> Result<Plan, PlanRefusal>
    requires { IsTarget target.now }
    ensures tree { IfOk result (λ plan. (turns : List Turn) → tree_under plan turns ≡ plan_tree state.now target.now turns) }
    ensures longest { IfOk result (λ plan. length_of plan ≡ plan_length state.now target.now) }
    ensures alone { IfOk result (λ plan. parts_of plan ≡ None) }
    ensures note { IfOk result (λ plan. note_of plan ≡ state.now.note) }
    ensures sides { IfOk result (λ plan. sides_told plan ≡ sides_of state.now target.now) }
    ensures text { IfOk result (λ plan. text_of plan ≡ []) }
    ensures few { IfOk result (λ plan. length (trees_in plan) ≤ most_steps state.now target.now) }
    ensures unplanned { IsErrOf result PlanRefusal.Unplanned ↔ IsTrue (is_apart state.now target.now) }
    ensures numbered { IsErrOf result PlanRefusal.NoGeneration ↔ IsTrue (lacks_generation state.now target.now) }
    ensures not_large { IsErrOf result PlanRefusal.TooLarge → ⊥ }
{
    let (note, wanted) = (state.note, state.wanted);
    let scene = Scene {
        by: Actor(state.generation.image),
        crew: state.crew(),
        ready: state.ready,
        rounds: state.retries,
        sides: state.sides(target),
    };
    match target {
        Target::Workers(wanted) => plan_workers(alloc, &scene, *wanted, note),
        Target::Mend(overdue) => plan_mend(alloc, &scene, overdue, wanted, note),
        Target::Reopen => plan_reopen(alloc, &scene, note),
        Target::Reload(settings) => plan_reload(alloc, state, settings, settings.surge, false),
        Target::Upgrade(_) | Target::Attended(_) => match next_image(state.generation) {
            None => Err(PlanRefusal::NoGeneration),
            Some(_) => Err(PlanRefusal::Unplanned),
        },
        Target::Stop { quick } => plan_stop(alloc, &scene, state.pid_path, note, *quick),
    }
}
