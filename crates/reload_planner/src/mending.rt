//! The plan that replaces workers that are lost or overdue.
ghost use Rattle.std.specs.Prelude.{◌≡◌, ◌≤◌, ◌<◌, ◌+◌, ◌*◌, List, [], None, length, IfOk, IsErrOf, IsOkUnless, OnOk};
ghost use Rattle.std.specs.List.{AllByRecursion};
ghost use Rattle.definitions.specs.Plans.{Turn, mend_tree};
ghost use Rattle.rollback_plan.specs.declared.draft.DraftRefusal.TheVariants.{TooLarge};
ghost use Rattle.rollback_plan.specs.declared.draft.TheConstants.{MOST_STEPS};
ghost use Rattle.rollback_plan.specs.Drafts.{trees_of, IsMade};
ghost use Rattle.call_laws.specs.Lengths.{height};
ghost use Rattle.rollback_plan.specs.Plans.{tree_of, tree_under, length_of, parts_of, note_of, sides_told, text_of, trees_in};
ghost use Rattle.reload_planner.specs.Changes.{repair_tree};

use crate::{PlanRefusal, Scene};
use listener_set::{Numbers, WORKER_LIMIT};
use plan_pieces::{add_each, add_starts_any, listed};
use rollback_plan::{Batch, Draft, DraftRefusal, Errand, Place, Plan};
use std::alloc::Global;
use vocabulary::{PidNote, Side};

/// Adds the kills of some numbers, then the starts of others, which go on after a failure, and the
/// settle.
fn add_mending(
    draft: &mut Draft,
    scene: &Scene,
    wanted: &Numbers,
    kills: &[u32],
    starts: &[u32],
) -> Result<Place, DraftRefusal>
    ensures made { IfOk result (λ place. IsMade draft.new place (repair_tree scene.now.by scene.now.crew scene.now.rounds wanted.now kills.now starts.now)) }
    ensures count { OnOk result (length (trees_of draft.new) ≡ length (trees_of draft.old) + ((1 + 4 * scene.now.rounds) + 3 * length starts.now + length kills.now)) }
    ensures too_large { IsErrOf result TooLarge → MOST_STEPS < length (trees_of draft.old) + ((1 + 4 * scene.now.rounds) + 3 * length starts.now + length kills.now) }
{
    let (by, crew) = (scene.by, &scene.crew);
    let settled = draft.settle(by, crew, wanted, Side::Target, scene.rounds)?;
    let starting = add_starts_any(draft, by, crew, starts, settled)?;
    let overdue = Batch::Workers(Errand::Kill, crew.generation, kills);
    add_each(draft, by, &overdue, starting)
}

/// The plan of a mending: it kills the workers that are overdue and ready, starts each wanted number
/// that is not ready or is overdue, going on after a failure, and settles. Only `Memory` is refused:
/// no such plan is too large.
pub fn plan_mend(
    alloc: Global,
    scene: &Scene,
    overdue: &Numbers,
    wanted: u32,
    note: PidNote,
) -> Result<Plan, PlanRefusal>
    requires wanted { wanted ≤ WORKER_LIMIT }
    requires ready { AllByRecursion (λ k. k < wanted) scene.now.ready }
    requires rounds { scene.now.rounds ≤ 8 }
    ensures tree { IfOk result (λ plan. (turns : List Turn) → tree_under plan turns ≡ mend_tree scene.now.by scene.now.crew scene.now.ready scene.now.rounds overdue.now wanted) }
    ensures longest { IfOk result (λ plan. length_of plan ≡ height (tree_of plan)) }
    ensures alone { IfOk result (λ plan. parts_of plan ≡ None) }
    ensures note { IfOk result (λ plan. note_of plan ≡ note) }
    ensures sides { IfOk result (λ plan. sides_told plan ≡ scene.now.sides) }
    ensures text { IfOk result (λ plan. text_of plan ≡ []) }
    ensures few { IfOk result (λ plan. length (trees_in plan) ≤ 4 * wanted + (1 + 4 * scene.now.rounds)) }
    ensures memory { IsOkUnless result PlanRefusal.Memory }
{
    let all = Numbers::below(wanted);
    let kills = listed(alloc, &overdue.minus(&overdue.minus(&scene.ready)))?;
    let starts = listed(alloc, &all.minus(&scene.ready.minus(overdue)))?;
    let mut draft = Draft::new(alloc);
    let first = add_mending(&mut draft, scene, &all, &kills, &starts)?;
    Ok(draft.finish(first, note, &scene.sides, Vec::new(alloc))?)
}
