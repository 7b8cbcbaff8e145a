//! The last step.
ghost use Rattle.std.specs.Prelude.{◌≡◌, ◌+◌, ◌*◌, ◌<◌, ◌≤◌, ◌&&◌, length, cond, not, IfOk};
ghost use Rattle.definitions.specs.Plans.{asks, either};
ghost use Rattle.definitions.specs.Calls as call;
ghost use Rattle.rollback_plan.specs.Drafts.{trees_of, tree_at, IsMade, Grows, GrowsWithin};
ghost use Rattle.reload_planner.specs.Changes.{on_tree};
ghost use Rattle.reload_planner.specs.Trees.{last_tree};

use crate::back::add_ways;
use crate::renewal::SteppedRenewal;
use listener_set::Numbers;
use plan_pieces::{add_each, add_starts};
use rollback_plan::{Batch, Draft, DraftRefusal, Errand, Place, PlanEdge};
use std::alloc::Global;
use vocabulary::{Actor, Call, Order, Reply, Side};

/// Whether the operator is asked: in the first step, where that is wanted.
pub(crate) fn is_due(asked: bool, first: bool) -> bool
    ensures due { result ≡ (asked && first) }
    ensures few { cond result 1 0 ≤ cond first 1 0 }
{
    asked && first
}

/// Adds the question to the operator, whether to go on or back, where it is to be asked.
pub(crate) fn add_question(
    draft: &mut Draft,
    by: Actor,
    asked: bool,
    on: Place,
    back: Place,
) -> Result<Place, DraftRefusal>
    requires on { on.0 < length (trees_of draft.old) }
    requires back { back.0 < length (trees_of draft.old) }
    ensures made { IfOk result (λ place. IsMade draft.new place (asks asked by 1 (tree_at draft.old on) (tree_at draft.old back))) }
    ensures grows { GrowsWithin draft.old draft.new result (cond asked 1 0) }
{
    if !asked {
        return Ok(on);
    }
    let go = PlanEdge::to(&[Reply::Go], on);
    let returns = PlanEdge::to(&[Reply::Back], back);
    draft.add(
        by,
        Order::Make(Call::Ask(1)),
        &Numbers::none(),
        &[go, returns],
    )
}

/// Adds what follows where all new workers are ready: the old ones that are left quit, the last first, what is listened on no
/// more is closed, and the target settles.
fn add_on(draft: &mut Draft, renewal: &SteppedRenewal<'_>) -> Result<Place, DraftRefusal>
    ensures made { IfOk result (λ place. IsMade draft.new place (on_tree renewal.now.by renewal.now.old renewal.now.new renewal.now.left.now renewal.now.rounds renewal.now.dropped.now renewal.now.wanted)) }
    ensures grows { Grows draft.old draft.new result ((1 + 4 * renewal.now.rounds) + length renewal.now.dropped.now + length renewal.now.left.now) }
{
    let by = renewal.by;
    let settled = draft.settle(
        by,
        &renewal.new,
        &renewal.wanted,
        Side::Target,
        renewal.rounds,
    )?;
    let closing = add_each(draft, by, &Batch::Closes(renewal.dropped), settled)?;
    let quits = Batch::Workers(Errand::Quit, renewal.old.generation, renewal.left);
    add_each(draft, by, &quits, closing)
}

/// Adds a census of all new workers.
fn add_count(
    draft: &mut Draft,
    renewal: &SteppedRenewal<'_>,
    full: Place,
    short: Place,
) -> Result<Place, DraftRefusal>
    requires full { full.0 < length (trees_of draft.old) }
    requires short { short.0 < length (trees_of draft.old) }
    ensures made { IfOk result (λ place. IsMade draft.new place (either renewal.now.by (call.Census renewal.now.new.generation) renewal.now.wanted (tree_at draft.old full) (tree_at draft.old short))) }
    ensures grows { Grows draft.old draft.new result 1 }
{
    draft.add(
        renewal.by,
        Order::Make(Call::Census(renewal.new.generation)),
        &renewal.wanted,
        &[
            PlanEdge::to(&[Reply::Full], full),
            PlanEdge::to(&[Reply::Short], short),
        ],
    )
}

/// Adds the census of all new workers and what follows it, where the question comes first if it is due; what is short, and an
/// operator that goes back, lead to where the step is undone.
fn add_trial(
    draft: &mut Draft,
    renewal: &SteppedRenewal<'_>,
    first: bool,
    undone: Place,
) -> Result<Place, DraftRefusal>
    requires { undone.0 < length (trees_of draft.old) }
    ensures made { IfOk result (λ place. IsMade draft.new place (either renewal.now.by (call.Census renewal.now.new.generation) renewal.now.wanted
        (asks (renewal.now.asked && first) renewal.now.by 1 (on_tree renewal.now.by renewal.now.old renewal.now.new renewal.now.left.now renewal.now.rounds renewal.now.dropped.now renewal.now.wanted) (tree_at draft.old undone))
        (tree_at draft.old undone))) }
    ensures grows { GrowsWithin draft.old draft.new result ((1 + 4 * renewal.now.rounds) + length renewal.now.dropped.now + length renewal.now.left.now + 1 + cond first 1 0) }
{
    let on = add_on(draft, renewal)?;
    let is_due = is_due(renewal.asked, first);
    let asking = add_question(draft, renewal.by, is_due, on, undone)?;
    add_count(draft, renewal, asking, undone)
}

/// Adds the last step: its new workers are started, all new ones are counted, and it goes on. If it is the first step, too,
/// the operator is asked before. Where a start fails, the census is short or the operator goes back, its new workers quit.
pub(crate) fn add_last(
    alloc: Global,
    draft: &mut Draft,
    renewal: &SteppedRenewal<'_>,
    first: bool,
    back: Place,
) -> Result<Place, DraftRefusal>
    requires { back.0 < length (trees_of draft.old) }
    ensures made { IfOk result (λ place. IsMade draft.new place (last_tree renewal.now.asked renewal.now.by renewal.now.old renewal.now.new renewal.now.last.now renewal.now.left.now
        renewal.now.rounds renewal.now.dropped.now renewal.now.wanted first (tree_at draft.old back))) }
    ensures grows { GrowsWithin draft.old draft.new result (6 * length renewal.now.last.now + (1 + 4 * renewal.now.rounds) + length renewal.now.dropped.now + length renewal.now.left.now + 1 + cond first 1 0) }
{
    let (by, last) = (renewal.by, renewal.last);
    let ways = add_ways(alloc, draft, renewal, !first, last, back)?;
    let undone = ways[last.len()];
    let counting = add_trial(draft, renewal, first, undone)?;
    add_starts(draft, by, &renewal.new, last, counting, &ways)
}
