//! The steps but the last.
ghost use Rattle.std.specs.Prelude.{◌≡◌, ◌+◌, ◌*◌, ◌<◌, ◌&&◌, List, ℕ, length, reverse, take, cond, IfOk, IsTrue};
ghost use Rattle.definitions.specs.Run.{Tree};
ghost use Rattle.definitions.specs.Plans.{asks, awaits_gone, starts};
ghost use Rattle.call_laws.specs.Pieces.{quits};
ghost use Rattle.rollback_plan.specs.Drafts.{trees_of, tree_at, are_places, IsMade, Grows, GrowsWithin};
ghost use Rattle.rollback_plan.specs.Back.{AreMade};
ghost use Rattle.definitions.specs.Plans.{in_steps};
ghost use Rattle.reload_planner.specs.Trees.{last_tree, wave_tree, moved};

use crate::back::add_ways;
use crate::last::{add_last, add_question, is_due};
use crate::renewal::SteppedRenewal;
use plan_pieces::{add_each, add_starts, add_starts_any, listed};
use plan_rollout::RolloutStep;
use rollback_plan::{Batch, Draft, DraftRefusal, Errand, Place};
use std::alloc::Global;

/// The workers of a step.
#[derive(Clone, Copy)]
struct Wave<'a> {
    /// The new ones that start, and the old ones that quit then, upwards.
    starts: &'a [u32],
    quits: &'a [u32],
    /// Whether it is the first step.
    first: bool,
}

/// Adds that the old workers of a step quit, the last first, and are waited for, before the rest.
fn add_leaving(
    draft: &mut Draft,
    renewal: &SteppedRenewal<'_>,
    numbers: &[u32],
    rest: Place,
) -> Result<Place, DraftRefusal>
    requires { rest.0 < length (trees_of draft.old) }
    ensures made { IfOk result (λ place. IsMade draft.new place (quits renewal.now.by renewal.now.old.generation (reverse numbers.now)
        (awaits_gone renewal.now.by renewal.now.old.generation (reverse numbers.now) (tree_at draft.old rest)))) }
    ensures grows { Grows draft.old draft.new result (3 * length numbers.now) }
{
    let (by, generation) = (renewal.by, renewal.old.generation);
    let waits = Batch::Workers(Errand::AwaitGone, generation, numbers);
    let quits = Batch::Workers(Errand::Quit, generation, numbers);
    let waiting = add_each(draft, by, &waits, rest)?;
    add_each(draft, by, &quits, waiting)
}

/// Adds a step before the rest: its new workers are started, the operator is asked where that is due, and its old workers
/// quit. The i-th of the ways back is taken where the first i of the new ones were forked and a start fails, and the last where
/// the operator goes back.
fn add_wave(
    draft: &mut Draft,
    renewal: &SteppedRenewal<'_>,
    wave: &Wave<'_>,
    rest: Place,
    ways_back: &[Place],
) -> Result<Place, DraftRefusal>
    requires rest { rest.0 < length (trees_of draft.old) }
    requires each { length ways_back.now ≡ length wave.now.starts.now + 1 }
    requires ways { IsTrue (are_places draft.old ways_back.now) }
    ensures made { IfOk result (λ place. (bad : List ℕ → Tree) → AreMade draft.old ways_back.now (length wave.now.starts.now) (λ i. bad (reverse (take i wave.now.starts.now)))
        → IsMade draft.new place (wave_tree (renewal.now.asked && wave.now.first) renewal.now.by renewal.now.old renewal.now.new wave.now.starts.now wave.now.quits.now (tree_at draft.old rest) bad)) }
    ensures grows { GrowsWithin draft.old draft.new result (3 * length wave.now.starts.now + 3 * length wave.now.quits.now + cond wave.now.first 1 0) }
{
    let (by, starts) = (renewal.by, wave.starts);
    let undone = ways_back[starts.len()];
    let leaving = add_leaving(draft, renewal, wave.quits, rest)?;
    let is_due = is_due(renewal.asked, wave.first);
    let asking = add_question(draft, by, is_due, leaving, undone)?;
    add_starts(draft, by, &renewal.new, starts, asking, ways_back)
}

/// Adds these steps and the last one. Where one fails it is undone, and what undoes the earlier ones, the last of them first,
/// is at the way back.
pub(crate) fn add_steps(
    alloc: Global,
    draft: &mut Draft,
    renewal: &SteppedRenewal<'_>,
    steps: &[RolloutStep],
    first: bool,
    back: Place,
) -> Result<Place, DraftRefusal>
    requires { back.0 < length (trees_of draft.old) }
    ensures made { IfOk result (λ place. IsMade draft.new place (in_steps renewal.now.asked first renewal.now.by renewal.now.old renewal.now.new steps.now
        (last_tree renewal.now.asked renewal.now.by renewal.now.old renewal.now.new renewal.now.last.now renewal.now.left.now renewal.now.rounds renewal.now.dropped.now renewal.now.wanted)
        (tree_at draft.old back))) }
    ensures grows { GrowsWithin draft.old draft.new result (6 * moved steps.now + 6 * length renewal.now.last.now + (1 + 4 * renewal.now.rounds) + length renewal.now.dropped.now + length renewal.now.left.now + 1 + cond first 1 0) }
{
    let Some((step, more)) = steps.split_first() else {
        return add_last(alloc, draft, renewal, first, back);
    };
    let starts = listed(alloc, &step.starts)?;
    let quits = listed(alloc, &step.quits)?;
    let wave = Wave {
        starts: &starts,
        quits: &quits,
        first,
    };
    let ways = add_ways(alloc, draft, renewal, !first, wave.starts, back)?;
    let undone = ways[wave.starts.len()];
    let taken_back = add_starts_any(draft, renewal.by, &renewal.old, wave.quits, undone)?;
    let next = add_steps(alloc, draft, renewal, more, false, taken_back)?;
    add_wave(draft, renewal, &wave, next, &ways)
}
