//! What a new master tries, while there is a way back: the plain reply goes on, and any other, or that the master is
//! gone, goes back.
ghost use Rattle.std.specs.Prelude.{◌≡◌, ◌+◌, ◌<◌, length, IfOk, IsErrOf, IsTrue, OnOk};
ghost use Rattle.rollback_plan.specs.declared.draft.DraftRefusal.TheVariants.{TooLarge};
ghost use Rattle.rollback_plan.specs.declared.draft.TheConstants.{MOST_STEPS};
ghost use Rattle.definitions.specs.Plans as plans;
ghost use Rattle.plan_steps.specs.Steps.{tree_among};
ghost use Rattle.plan_steps.specs.Batches.{calls_of, size_of};
ghost use Rattle.rollback_plan.specs.Drafts.{trees_of, is_plain, IsMade, LeadsTo, Keeps};

use call_replies::{other_replies, plain_replies};
use listener_set::Numbers;
use rollback_plan::{Batch, Draft, DraftRefusal, Next, Place, PlanEdge};
use vocabulary::{Actor, Call, Order};

/// Adds a call that a new master tries, before the rest and with a way back, each of them a place or an end; a census
/// must contain the set. `TooLarge` only where the draft would pass its most steps; a refused call leaves it as it was.
pub fn add_tried(
    draft: &mut Draft,
    by: Actor,
    call: Call,
    set: &Numbers,
    rest: Next,
    back: Next,
) -> Result<Place, DraftRefusal>
    requires rest { IsTrue (is_plain (length (trees_of draft.old)) rest) }
    requires back { IsTrue (is_plain (length (trees_of draft.old)) back) }
    ensures made { IfOk result (λ place. IsMade draft.new place (plans.tries by call set.now (tree_among 0 (trees_of draft.old) rest) (tree_among 0 (trees_of draft.old) back))) }
    ensures count { OnOk result (length (trees_of draft.new) ≡ length (trees_of draft.old) + 1) }
    ensures keeps { Keeps draft.old draft.new }
    ensures too_large { IsErrOf result TooLarge → MOST_STEPS < length (trees_of draft.old) + 1 }
{
    let edges = [
        PlanEdge::new(plain_replies(&call), rest),
        PlanEdge::new(other_replies(&call), back),
    ];
    draft.add(by, Order::Make(call), set, &edges)
}

/// Adds that a new master tries these calls, in their order, before the rest and with a way back. `TooLarge` only where
/// the draft would pass its most steps. A refused call may leave some of the steps.
pub fn add_tried_all(
    draft: &mut Draft,
    by: Actor,
    calls: &Batch<'_>,
    rest: Next,
    back: Next,
) -> Result<Next, DraftRefusal>
    requires rest { IsTrue (is_plain (length (trees_of draft.old)) rest) }
    requires back { IsTrue (is_plain (length (trees_of draft.old)) back) }
    ensures made { IfOk result (λ next. LeadsTo draft.new next (plans.tries_all by (calls_of calls.now) (tree_among 0 (trees_of draft.old) rest) (tree_among 0 (trees_of draft.old) back))) }
    ensures count { OnOk result (length (trees_of draft.new) ≡ length (trees_of draft.old) + size_of calls.now) }
    ensures keeps { Keeps draft.old draft.new }
    ensures too_large { IsErrOf result TooLarge → MOST_STEPS < length (trees_of draft.old) + size_of calls.now }
{
    let none = Numbers::none();
    let mut next = rest;
    for i in (0..calls.len()).rev() {
        next = Next::To(add_tried(draft, by, calls.get(i), &none, next, back)?);
    }
    Ok(next)
}
