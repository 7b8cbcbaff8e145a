//! The plan of a target, by the planner that plans such a target.
ghost use Rattle.std.specs.Prelude.{◌≡◌, ◌≤◌, ◌↔◌, List, length, IfOk, IsErrOf, IsTrue};
ghost use Rattle.definitions.specs.Master.{handover_for, sides_of};
ghost use Rattle.service_state.specs.Targets.{IsTarget, lacks_generation};
ghost use Rattle.definitions.specs.Plans.{Turn, plan_tree};
ghost use Rattle.call_laws.specs.Lengths.{plan_length};
ghost use Rattle.handover_text.specs.Reading.{Hands};
ghost use Rattle.rollback_plan.specs.Plans.{tree_under, length_of, note_of, sides_told, text_of, trees_in};
ghost use Rattle.reload_planner.specs.Planning.{most_steps};
ghost use Rattle.upgrade_planner.specs.Planned.{HasPlan};

use crate::{plan, plan_attended};
use reload_planner::PlanRefusal;
use rollback_plan::Plan;
use service_state::Record;
use std::alloc::Global;
use vocabulary::Target;

/// Plans a target for a running master: what is done, and what is done instead where a call fails.
/// Only an upgrade is planned for two masters, and its plan has the text that the new one is handed.
///
/// `NoGeneration` (P3) exactly where a number of the target's generation would pass 4,294,967,295.
/// Each target has a planner, so `Unplanned` (P2) never comes, and no plan is too large.
pub fn plan_target(alloc: Global, state: &Record, target: &Target) -> Result<Plan, PlanRefusal>
    requires { IsTarget target.now }
    ensures has_plan { IfOk result (λ _. HasPlan state.now target.now) }
    ensures tree { IfOk result (λ plan. (turns : List Turn) → tree_under plan turns ≡ plan_tree state.now target.now turns) }
    ensures longest { IfOk result (λ plan. length_of plan ≡ plan_length state.now target.now) }
    ensures note { IfOk result (λ plan. note_of plan ≡ state.now.note) }
    ensures sides { IfOk result (λ plan. sides_told plan ≡ sides_of state.now target.now) }
    ensures text { IfOk result (λ plan. Hands (text_of plan) (handover_for state.now target.now)) }
    ensures few { IfOk result (λ plan. length (trees_in plan) ≤ most_steps state.now target.now) }
    ensures numbered { IsErrOf result PlanRefusal.NoGeneration ↔ IsTrue (lacks_generation state.now target.now) }
    ensures not_large { IsErrOf result PlanRefusal.TooLarge → ⊥ }
    ensures planned_here { IsErrOf result PlanRefusal.Unplanned → ⊥ }
{
    match target {
        Target::Upgrade(settings) => plan(alloc, state, settings),
        Target::Attended(settings) => plan_attended(alloc, state, settings),
        _ => reload_planner::plan(alloc, state, target),
    }
}
