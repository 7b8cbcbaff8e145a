//! The plan that changes the number of workers.
ghost use Rattle.std.specs.Prelude.{◌≡◌, ◌≤◌, ◌<◌, ◌+◌, ◌*◌, List, [], None, length, reverse, IfOk, IsErrOf, IsOkUnless, OnOk};
ghost use Rattle.definitions.specs.Plans.{Turn, workers_tree};
ghost use Rattle.rollback_plan.specs.declared.draft.DraftRefusal.TheVariants.{TooLarge};
ghost use Rattle.rollback_plan.specs.declared.draft.TheConstants.{MOST_STEPS};
ghost use Rattle.rollback_plan.specs.Drafts.{trees_of, IsMade};
ghost use Rattle.call_laws.specs.Lengths.{height};
ghost use Rattle.rollback_plan.specs.Plans.{tree_of, tree_under, length_of, parts_of, note_of, sides_told, text_of, trees_in};
ghost use Rattle.reload_planner.specs.Changes.{change_tree};

use crate::{PlanRefusal, Scene};
use listener_set::{Numbers, WORKER_LIMIT};
use plan_pieces::{add_each, add_starts, listed};
use rollback_plan::{Batch, Draft, DraftRefusal, Errand, Place, Plan, Undone};
use std::alloc::Global;
use vocabulary::{PidNote, Side};

/// Adds the starts of some numbers, then the quits of others, the last first, and the settle.
fn add_workers(
    draft: &mut Draft,
    scene: &Scene,
    wanted: &Numbers,
    starts: &[u32],
    quits: &[u32],
) -> Result<Place, DraftRefusal>
    ensures made { IfOk result (λ place. IsMade draft.new place (change_tree scene.now.by scene.now.crew scene.now.ready scene.now.rounds wanted.now starts.now (reverse quits.now))) }
    ensures count { OnOk result (length (trees_of draft.new) ≡ length (trees_of draft.old) + (2 * (1 + 4 * scene.now.rounds) + 4 * length starts.now + length quits.now)) }
    ensures too_large { IsErrOf result TooLarge → MOST_STEPS < length (trees_of draft.old) + (2 * (1 + 4 * scene.now.rounds) + 4 * length starts.now + length quits.now) }
{
    let (by, crew) = (scene.by, &scene.crew);
    let settled = draft.settle(by, crew, wanted, Side::Target, scene.rounds)?;
    let surplus = Batch::Workers(Errand::Quit, crew.generation, quits);
    let quitting = add_each(draft, by, &surplus, settled)?;
    let undone = Undone {
        generation: crew.generation,
        forked: starts,
        opened: &[],
    };
    let ways_back = draft.back(by, &undone, crew, &scene.ready, scene.rounds)?;
    add_starts(draft, by, crew, starts, quitting, &ways_back.forked)
}

/// The plan for so many workers: it starts those below that number that are not ready, then quits
/// the others downwards, and settles. Where a start fails it quits what it forked and settles on
/// what was ready before. Only `Memory` is refused: no such plan is too large.
pub fn plan_workers(
    alloc: Global,
    scene: &Scene,
    wanted: u32,
    note: PidNote,
) -> Result<Plan, PlanRefusal>
    requires wanted { wanted ≤ WORKER_LIMIT }
    requires rounds { scene.now.rounds ≤ 8 }
    ensures tree { IfOk result (λ plan. (turns : List Turn) → tree_under plan turns ≡ workers_tree scene.now.by scene.now.crew scene.now.ready scene.now.rounds wanted) }
    ensures longest { IfOk result (λ plan. length_of plan ≡ height (tree_of plan)) }
    ensures alone { IfOk result (λ plan. parts_of plan ≡ None) }
    ensures note { IfOk result (λ plan. note_of plan ≡ note) }
    ensures sides { IfOk result (λ plan. sides_told plan ≡ scene.now.sides) }
    ensures text { IfOk result (λ plan. text_of plan ≡ []) }
    ensures few { IfOk result (λ plan. length (trees_in plan) ≤ length scene.now.ready + 4 * wanted + 2 * (1 + 4 * scene.now.rounds)) }
    ensures memory { IsOkUnless result PlanRefusal.Memory }
{
    let all = Numbers::below(wanted);
    let starts = listed(alloc, &all.minus(&scene.ready))?;
    let quits = listed(alloc, &scene.ready.minus(&all))?;
    let mut draft = Draft::new(alloc);
    let first = add_workers(&mut draft, scene, &all, &starts, &quits)?;
    Ok(draft.finish(first, note, &scene.sides, Vec::new(alloc))?)
}
