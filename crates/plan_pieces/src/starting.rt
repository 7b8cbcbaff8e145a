//! How plans start workers: all forks, then a wait for each.
ghost use Rattle.std.specs.Prelude.{◌≡◌, ◌+◌, ◌*◌, ◌<◌, List, ℕ, length, reverse, take, IfOk, IsErrOf, IsTrue, OnOk};
ghost use Rattle.rollback_plan.specs.declared.draft.DraftRefusal.TheVariants.{TooLarge};
ghost use Rattle.rollback_plan.specs.declared.draft.TheConstants.{MOST_STEPS};
ghost use Rattle.vocabulary.specs.declared.calls.Call.TheVariants as call;
ghost use Rattle.definitions.specs.Run.{Tree};
ghost use Rattle.definitions.specs.Plans as plans;
ghost use Rattle.call_laws.specs.Pieces as pieces;
ghost use Rattle.rollback_plan.specs.Drafts.{trees_of, tree_at, are_places, IsMade, Keeps, Grows};
ghost use Rattle.rollback_plan.specs.Back.{AreMade};

use crate::attempting::add_attempts;
use listener_set::{Generation, Numbers};
use rollback_plan::{Batch, Draft, DraftRefusal, Place, PlanEdge};
use vocabulary::{Actor, Call, Order, Reply};
use worker_groups::Crew;

/// Adds the forks of these numbers of a crew and then a wait for each, upwards, before the rest. The
/// i-th of the ways back is taken where the first i numbers were forked and a start fails; a worker
/// that is late is killed first. `TooLarge` only where the draft would pass its most steps. A refused
/// call may leave some of the steps.
pub fn add_starts(
    draft: &mut Draft,
    by: Actor,
    crew: &Crew,
    numbers: &[u32],
    rest: Place,
    ways_back: &[Place],
) -> Result<Place, DraftRefusal>
    requires rest { rest.0 < length (trees_of draft.old) }
    requires each { length ways_back.now ≡ length numbers.now + 1 }
    requires ways { IsTrue (are_places draft.old ways_back.now) }
    ensures made { IfOk result (λ place. (bad : List ℕ → Tree) → AreMade draft.old ways_back.now (length numbers.now) (λ i. bad (reverse (take i numbers.now)))
        → IsMade draft.new place (plans.starts by crew.now numbers.now (tree_at draft.old rest) bad)) }
    ensures count { OnOk result (length (trees_of draft.new) ≡ length (trees_of draft.old) + 3 * length numbers.now) }
    ensures keeps { Keeps draft.old draft.new }
    ensures too_large { IsErrOf result TooLarge → MOST_STEPS < length (trees_of draft.old) + 3 * length numbers.now }
{
    let failed = ways_back[numbers.len()];
    let waits = add_awaits(draft, by, crew.generation, numbers, rest, failed)?;
    add_attempts(draft, by, &Batch::Forks(crew, numbers), waits, ways_back)
}

/// Adds a wait for each of these numbers, upwards, before the rest.
fn add_awaits(
    draft: &mut Draft,
    by: Actor,
    generation: Generation,
    numbers: &[u32],
    rest: Place,
    failed: Place,
) -> Result<Place, DraftRefusal>
    requires rest { rest.0 < length (trees_of draft.old) }
    requires failed { failed.0 < length (trees_of draft.old) }
    ensures made { IfOk result (λ place. IsMade draft.new place (plans.awaits by generation numbers.now (tree_at draft.old rest) (tree_at draft.old failed))) }
    ensures grows { Grows draft.old draft.new result (2 * length numbers.now) }
{
    let mut next = rest;
    for i in (0..numbers.len()).rev() {
        next = add_await(draft, by, generation, numbers[i], next, failed)?;
    }
    Ok(next)
}

/// Adds a wait for a number, which is killed where it is late.
fn add_await(
    draft: &mut Draft,
    by: Actor,
    generation: Generation,
    number: u32,
    rest: Place,
    failed: Place,
) -> Result<Place, DraftRefusal>
    requires rest { rest.0 < length (trees_of draft.old) }
    requires failed { failed.0 < length (trees_of draft.old) }
    ensures made { IfOk result (λ place. IsMade draft.new place (plans.does by (call.AwaitReady generation number)
        (pieces.await_edges (tree_at draft.old rest) (tree_at draft.old failed) (plans.does by (call.Kill generation number) (plans.then_edge (tree_at draft.old failed)))))) }
    ensures grows { Grows draft.old draft.new result 2 }
{
    let killed = draft.call(by, Call::Kill(generation, number), failed)?;
    draft.add(
        by,
        Order::Make(Call::AwaitReady(generation, number)),
        &Numbers::none(),
        &[
            PlanEdge::to(&[Reply::IsReady], rest),
            PlanEdge::to(&[Reply::Gone], failed),
            PlanEdge::to(&[Reply::Late], killed),
        ],
    )
}
