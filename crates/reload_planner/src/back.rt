//! The ways back from a step.
ghost use Rattle.std.specs.Prelude.{◌≡◌, ◌+◌, ◌*◌, ◌<◌, length, reverse, take, if◌then◌else◌, IfOk};
ghost use Rattle.definitions.specs.Plans.{awaits_gone};
ghost use Rattle.plan_steps.specs.Batches.{calls_of, size_of};
ghost use Rattle.rollback_plan.specs.Drafts.{trees_of, tree_at, IsMade, Grows, GrowsWithin};
ghost use Rattle.rollback_plan.specs.Back.{told_back, AreMade};
ghost use Rattle.definitions.specs.Plans.{quits_new};

use crate::renewal::SteppedRenewal;
use plan_pieces::add_each;
use rollback_plan::{Batch, Draft, DraftRefusal, Errand, Place};
use std::alloc::Global;
use vocabulary::Actor;

/// Adds these calls, each of which is only answered fine, before the rest. The i-th place that it gives is where the first i of
/// them are made, the last of these first. A refused call may leave some of them.
fn add_told(
    alloc: Global,
    draft: &mut Draft,
    by: Actor,
    calls: &Batch<'_>,
    rest: Place,
) -> Result<Vec<Place>, DraftRefusal>
    requires { rest.0 < length (trees_of draft.old) }
    ensures made { IfOk result (λ places. AreMade draft.new places.items (size_of calls.now) (told_back by (calls_of calls.now) (tree_at draft.old rest))) }
    ensures grows { Grows draft.old draft.new result (size_of calls.now) }
{
    let mut places = Vec::new(alloc);
    let mut next = rest;
    places.push(next)?;
    for i in 0..calls.len() {
        next = draft.call(by, calls.get(i), next)?;
        places.push(next)?;
    }
    Ok(places)
}

/// Adds a wait until these new workers are gone, from the last to the first, before the rest, where it is to be waited.
fn add_wait(
    draft: &mut Draft,
    renewal: &SteppedRenewal<'_>,
    waits: bool,
    numbers: &[u32],
    rest: Place,
) -> Result<Place, DraftRefusal>
    requires { rest.0 < length (trees_of draft.old) }
    ensures made { IfOk result (λ place. IsMade draft.new place (if waits then awaits_gone renewal.now.by renewal.now.new.generation (reverse numbers.now) (tree_at draft.old rest) else tree_at draft.old rest)) }
    ensures grows { GrowsWithin draft.old draft.new result (2 * length numbers.now) }
{
    if !waits {
        return Ok(rest);
    }
    let gone = Batch::Workers(Errand::AwaitGone, renewal.new.generation, numbers);
    add_each(draft, renewal.by, &gone, rest)
}

/// Adds the ways back from a step that starts these numbers: the i-th of them quits the first i numbers, the last of them
/// first. Where earlier steps are taken back it waits for all of the numbers.
pub(crate) fn add_ways(
    alloc: Global,
    draft: &mut Draft,
    renewal: &SteppedRenewal<'_>,
    waits: bool,
    numbers: &[u32],
    back: Place,
) -> Result<Vec<Place>, DraftRefusal>
    requires { back.0 < length (trees_of draft.old) }
    ensures made { IfOk result (λ ways. AreMade draft.new ways.items (length numbers.now)
        (λ i. quits_new renewal.now.by renewal.now.new waits numbers.now (tree_at draft.old back) (reverse (take i numbers.now)))) }
    ensures grows { GrowsWithin draft.old draft.new result (3 * length numbers.now) }
{
    let new = &renewal.new;
    let waiting = add_wait(draft, renewal, waits, numbers, back)?;
    let quits = Batch::Workers(Errand::Quit, new.generation, numbers);
    add_told(alloc, draft, renewal.by, &quits, waiting)
}
