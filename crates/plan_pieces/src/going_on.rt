//! What plans do one call after another, whatever is answered.
ghost use Rattle.std.specs.Prelude.{◌≡◌, ◌+◌, ◌*◌, ◌<◌, Some, length, slice_get, IfOk, IsErrOf, OnOk};
ghost use Rattle.rollback_plan.specs.declared.draft.DraftRefusal.TheVariants.{TooLarge};
ghost use Rattle.rollback_plan.specs.declared.draft.TheConstants.{MOST_STEPS};
ghost use Rattle.definitions.specs.Plans.{starts_any};
ghost use Rattle.plan_steps.specs.Batches.{size_of};
ghost use Rattle.rollback_plan.specs.Drafts.{trees_of, tree_at, IsMade, Keeps, Grows};
ghost use Rattle.plan_pieces.specs.Pieces.{anyway, anyway_steps, in_turn, goes_back, made_calls, steps_in};

use call_replies::all_replies;
use listener_set::Numbers;
use rollback_plan::{Batch, Draft, DraftRefusal, Errand, Place, PlanEdge};
use vocabulary::{Actor, Call, Order, Reply};
use worker_groups::Crew;

/// Adds these calls before the rest, each of which is followed by the next whatever is answered: in their order, but
/// quits, and waits until workers are gone, from the last to the first. A worker that is late is killed. `TooLarge`
/// only where the draft would pass its most steps. A refused call may leave some of the steps.
pub fn add_each(
    draft: &mut Draft,
    by: Actor,
    calls: &Batch<'_>,
    rest: Place,
) -> Result<Place, DraftRefusal>
    requires { rest.0 < length (trees_of draft.old) }
    ensures made { IfOk result (λ place. IsMade draft.new place (in_turn by calls.now (tree_at draft.old rest))) }
    ensures count { OnOk result (length (trees_of draft.new) ≡ length (trees_of draft.old) + steps_in calls.now) }
    ensures keeps { Keeps draft.old draft.new }
    ensures too_large { IsErrOf result TooLarge → MOST_STEPS < length (trees_of draft.old) + steps_in calls.now }
{
    let mut next = rest;
    for i in (0..calls.len()).rev() {
        next = add_anyway(draft, by, made_at(calls, i), next)?;
    }
    Ok(next)
}

/// Adds the forks of these numbers of a crew and then a wait for each, upwards, before the rest,
/// which follows whatever is answered; a worker that is late is killed. `TooLarge` only where the
/// draft would pass its most steps. A refused call may leave some of the steps.
pub fn add_starts_any(
    draft: &mut Draft,
    by: Actor,
    crew: &Crew,
    numbers: &[u32],
    rest: Place,
) -> Result<Place, DraftRefusal>
    requires { rest.0 < length (trees_of draft.old) }
    ensures made { IfOk result (λ place. IsMade draft.new place (starts_any by crew.now numbers.now (tree_at draft.old rest))) }
    ensures count { OnOk result (length (trees_of draft.new) ≡ length (trees_of draft.old) + 3 * length numbers.now) }
    ensures keeps { Keeps draft.old draft.new }
    ensures too_large { IsErrOf result TooLarge → MOST_STEPS < length (trees_of draft.old) + 3 * length numbers.now }
{
    let waits = Batch::Workers(Errand::AwaitReady, crew.generation, numbers);
    let waiting = add_each(draft, by, &waits, rest)?;
    add_each(draft, by, &Batch::Forks(crew, numbers), waiting)
}

/// Whether the last of these calls is made first.
fn goes_back(calls: &Batch<'_>) -> bool
    ensures { result ≡ goes_back calls.now }
{
    matches!(
        calls,
        Batch::Workers(Errand::Quit | Errand::AwaitGone, _, _)
    )
}

/// The call that is made at this place, counted from 0.
fn made_at(calls: &Batch<'_>, place: usize) -> Call
    requires { place < size_of calls.now }
    ensures { slice_get (made_calls calls.now) place ≡ Some result }
{
    if goes_back(calls) {
        calls.get(calls.len() - 1 - place)
    } else {
        calls.get(place)
    }
}

/// Adds a call before the rest; a worker that is late is killed first.
fn add_anyway(draft: &mut Draft, by: Actor, call: Call, rest: Place) -> Result<Place, DraftRefusal>
    requires { rest.0 < length (trees_of draft.old) }
    ensures made { IfOk result (λ place. IsMade draft.new place (anyway by call (tree_at draft.old rest))) }
    ensures grows { Grows draft.old draft.new result (anyway_steps call) }
{
    let none = Numbers::none();
    match call {
        Call::AwaitReady(generation, number) => {
            let killed = draft.call(by, Call::Kill(generation, number), rest)?;
            let edges = [
                PlanEdge::to(&[Reply::IsReady, Reply::Gone], rest),
                PlanEdge::to(&[Reply::Late], killed),
            ];
            draft.add(by, Order::Make(call), &none, &edges)
        }
        Call::AwaitGone(generation, number) => {
            let killed = draft.call(by, Call::Kill(generation, number), rest)?;
            let edges = [
                PlanEdge::to(&[Reply::Gone], rest),
                PlanEdge::to(&[Reply::Late], killed),
            ];
            draft.add(by, Order::Make(call), &none, &edges)
        }
        _ => {
            let edges = [PlanEdge::to(all_replies(&call), rest)];
            draft.add(by, Order::Make(call), &none, &edges)
        }
    }
}
