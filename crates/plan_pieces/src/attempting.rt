//! Calls that are made one after another, until one fails.
ghost use Rattle.std.specs.Prelude.{◌≡◌, ◌+◌, ◌<◌, ℕ, ◌∷◌, [], length, IfOk, IsTrue};
ghost use Rattle.definitions.specs.Run.{Tree};
ghost use Rattle.plan_steps.specs.Batches.{calls_of, size_of};
ghost use Rattle.rollback_plan.specs.Drafts.{trees_of, tree_at, are_places, IsMade, Grows};
ghost use Rattle.rollback_plan.specs.Back.{AreMade};
ghost use Rattle.definitions.specs.Plans.{either};
ghost use Rattle.plan_pieces.specs.Pieces.{IsAttempted};

use call_replies::{failed_replies, plain_replies};
use listener_set::Numbers;
use rollback_plan::{Batch, Draft, DraftRefusal, Place, PlanEdge};
use vocabulary::{Actor, Call, Order};

/// Adds these calls, in their order, before the rest. The i-th of the ways back is taken where the first i calls went well
/// and the next one fails.
pub(crate) fn add_attempts(
    draft: &mut Draft,
    by: Actor,
    calls: &Batch<'_>,
    rest: Place,
    ways_back: &[Place],
) -> Result<Place, DraftRefusal>
    requires rest { rest.0 < length (trees_of draft.old) }
    requires each { length ways_back.now ≡ size_of calls.now + 1 }
    requires ways { IsTrue (are_places draft.old ways_back.now) }
    ensures made { IfOk result (λ place. (back tree : ℕ → Tree) → AreMade draft.old ways_back.now (size_of calls.now) back
        → IsAttempted by (calls_of calls.now) (tree_at draft.old rest) back tree → IsMade draft.new place (tree 0)) }
    ensures grows { Grows draft.old draft.new result (size_of calls.now) }
{
    let mut next = rest;
    for i in (0..calls.len()).rev() {
        next = add_attempt(draft, by, calls.get(i), next, ways_back[i])?;
    }
    Ok(next)
}

/// Adds a call; the plain reply goes on, and any other takes the way back.
fn add_attempt(
    draft: &mut Draft,
    by: Actor,
    call: Call,
    rest: Place,
    back: Place,
) -> Result<Place, DraftRefusal>
    requires rest { rest.0 < length (trees_of draft.old) }
    requires back { back.0 < length (trees_of draft.old) }
    ensures made { IfOk result (λ place. IsMade draft.new place (either by call [] (tree_at draft.old rest) (tree_at draft.old back))) }
    ensures grows { Grows draft.old draft.new result 1 }
{
    let edges = [
        PlanEdge::to(plain_replies(&call), rest),
        PlanEdge::to(failed_replies(&call), back),
    ];
    draft.add(by, Order::Make(call), &Numbers::none(), &edges)
}
