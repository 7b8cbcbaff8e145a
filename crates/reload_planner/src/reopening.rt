//! The plan that has each worker open its logs anew.
ghost use Rattle.std.specs.Prelude.{◌≡◌, ◌≤◌, ◌<◌, ◌+◌, ◌*◌, List, [], None, length, IfOk, IsErrOf, IsOkUnless, OnOk};
ghost use Rattle.definitions.specs.Plans.{Turn, reopen_tree, settle};
ghost use Rattle.call_laws.specs.Pieces.{usr1s};
ghost use Rattle.vocabulary.specs.declared.plans.Side.TheVariants as side;
ghost use Rattle.rollback_plan.specs.declared.draft.DraftRefusal.TheVariants.{TooLarge};
ghost use Rattle.rollback_plan.specs.declared.draft.TheConstants.{MOST_STEPS};
ghost use Rattle.rollback_plan.specs.Drafts.{trees_of, IsMade};
ghost use Rattle.call_laws.specs.Lengths.{height};
ghost use Rattle.rollback_plan.specs.Plans.{tree_of, tree_under, length_of, parts_of, note_of, sides_told, text_of, trees_in};

use crate::{PlanRefusal, Scene};
use plan_pieces::{add_each, listed};
use rollback_plan::{Batch, Draft, DraftRefusal, Errand, Place, Plan};
use std::alloc::Global;
use vocabulary::{PidNote, Side};

/// Adds that these numbers are told to open their logs anew, and the settle.
fn add_reopening(draft: &mut Draft, scene: &Scene, ready: &[u32]) -> Result<Place, DraftRefusal>
    ensures made { IfOk result (λ place. IsMade draft.new place (usr1s scene.now.by scene.now.crew.generation ready.now (settle scene.now.by scene.now.crew scene.now.ready side.Target scene.now.rounds))) }
    ensures count { OnOk result (length (trees_of draft.new) ≡ length (trees_of draft.old) + ((1 + 4 * scene.now.rounds) + length ready.now)) }
    ensures too_large { IsErrOf result TooLarge → MOST_STEPS < length (trees_of draft.old) + ((1 + 4 * scene.now.rounds) + length ready.now) }
{
    let (by, crew) = (scene.by, &scene.crew);
    let settled = draft.settle(by, crew, &scene.ready, Side::Target, scene.rounds)?;
    let usr1s = Batch::Workers(Errand::Usr1, crew.generation, ready);
    add_each(draft, by, &usr1s, settled)
}

/// The plan of a reopening: it tells each ready worker, upwards, and settles on them. Only `Memory`
/// is refused: no such plan is too large.
pub fn plan_reopen(alloc: Global, scene: &Scene, note: PidNote) -> Result<Plan, PlanRefusal>
    requires rounds { scene.now.rounds ≤ 8 }
    ensures tree { IfOk result (λ plan. (turns : List Turn) → tree_under plan turns ≡ reopen_tree scene.now.by scene.now.crew scene.now.ready scene.now.rounds) }
    ensures longest { IfOk result (λ plan. length_of plan ≡ height (tree_of plan)) }
    ensures alone { IfOk result (λ plan. parts_of plan ≡ None) }
    ensures note { IfOk result (λ plan. note_of plan ≡ note) }
    ensures sides { IfOk result (λ plan. sides_told plan ≡ scene.now.sides) }
    ensures text { IfOk result (λ plan. text_of plan ≡ []) }
    ensures few { IfOk result (λ plan. length (trees_in plan) ≤ length scene.now.ready + (1 + 4 * scene.now.rounds)) }
    ensures memory { IsOkUnless result PlanRefusal.Memory }
{
    let ready = listed(alloc, &scene.ready)?;
    let mut draft = Draft::new(alloc);
    let first = add_reopening(&mut draft, scene, &ready)?;
    Ok(draft.finish(first, note, &scene.sides, Vec::new(alloc))?)
}
