//! The plan of a reload in steps.
ghost use Rattle.std.specs.Prelude.{◌≡◌, ◌<◌, ◌≤◌, ◌+◌, ◌*◌, ◌↔◌, List, [], None, true, length, IfOk, IsErrOf, OnOk};
ghost use Rattle.vocabulary.specs.declared.targets.Target.TheVariants as target;
ghost use Rattle.definitions.specs.Master.{sides_of};
ghost use Rattle.definitions.specs.After as wanted;
ghost use Rattle.definitions.specs.Plans.{Turn};
ghost use Rattle.call_laws.specs.Lengths.{height};
ghost use Rattle.rollback_plan.specs.Drafts.{trees_of, IsMade};
ghost use Rattle.rollback_plan.specs.declared.draft.DraftRefusal.TheVariants.{TooLarge};
ghost use Rattle.rollback_plan.specs.declared.draft.TheConstants.{MOST_STEPS};
ghost use Rattle.rollback_plan.specs.Plans.{tree_of, tree_under, length_of, parts_of, note_of, sides_told, text_of, trees_in};
ghost use Rattle.definitions.specs.Plans.{reload_plan};
ghost use Rattle.reload_planner.specs.Trees.{renewed_tree, most_moved, most_reload, moved};

use crate::PlanRefusal;
use crate::renewal::SteppedRenewal;
use crate::steps::add_steps;
use listener_set::{Address, Numbers};
use plan_pieces::{add_opens, listed};
use plan_rollout::{RolloutStep, roll_out};
use rollback_plan::{Draft, DraftRefusal, Place, Plan, Undone};
use service_state::{Record, next_config};
use std::alloc::Global;
use vocabulary::{Actor, Settings, Target};
use worker_groups::Crew;

/// Adds a reload in steps: what is listened on anew is opened, and the steps follow. Where they fail, what was opened is closed,
/// and it settles on the workers that were ready.
fn add_renewal(
    alloc: Global,
    draft: &mut Draft,
    renewal: &SteppedRenewal<'_>,
    ready: &Numbers,
    added: &[Address],
    steps: &[RolloutStep],
) -> Result<Place, DraftRefusal>
    ensures made { IfOk result (λ place. IsMade draft.new place (renewed_tree renewal.now.asked renewal.now.by renewal.now.old renewal.now.new ready.now renewal.now.rounds added.now
        renewal.now.dropped.now renewal.now.wanted steps.now renewal.now.last.now renewal.now.left.now)) }
    ensures count { OnOk result (length (trees_of draft.new) ≤ length (trees_of draft.old) + most_moved (moved steps.now + length renewal.now.last.now) (length renewal.now.left.now) renewal.now.rounds (length added.now) (length renewal.now.dropped.now)) }
    ensures too_large { IsErrOf result TooLarge → MOST_STEPS < length (trees_of draft.old) + most_moved (moved steps.now + length renewal.now.last.now) (length renewal.now.left.now) renewal.now.rounds (length added.now) (length renewal.now.dropped.now) }
{
    let (by, new) = (renewal.by, &renewal.new);
    let undone = Undone {
        generation: new.generation,
        forked: &[],
        opened: added,
    };
    let ways_back = draft.back(by, &undone, &renewal.old, ready, renewal.rounds)?;
    let closed = ways_back.opened[added.len()];
    let begun = add_steps(alloc, draft, renewal, steps, true, closed)?;
    add_opens(draft, by, added, begun, &ways_back.opened)
}

/// The plan of a reload in steps, for a running master: the new workers are started so many at a time, and after each step but
/// the last as many old ones quit as those that are ready or wanted can spare, and are waited for. Where a step fails, the
/// steps are taken back, the last first. With `surge` 0, or no fewer than the new workers are, it is one step: the plan of a
/// reload. Where it is `asked`, the operator says in the first step whether to go on or back.
///
/// `NoGeneration` (P3) exactly where the number of the configuration would pass 4,294,967,295. No such plan is too large.
pub fn plan_reload(
    alloc: Global,
    state: &Record,
    settings: &Settings,
    surge: u32,
    asked: bool,
) -> Result<Plan, PlanRefusal>
    ensures tree { IfOk result (λ plan. (turns : List Turn) → tree_under plan turns ≡ reload_plan asked surge state.now settings.now) }
    ensures longest { IfOk result (λ plan. length_of plan ≡ height (tree_of plan)) }
    ensures alone { IfOk result (λ plan. parts_of plan ≡ None) }
    ensures note { IfOk result (λ plan. note_of plan ≡ state.now.note) }
    ensures sides { IfOk result (λ plan. sides_told plan ≡ sides_of state.now (target.Reload settings.now)) }
    ensures text { IfOk result (λ plan. text_of plan ≡ []) }
    ensures few { IfOk result (λ plan. length (trees_in plan) ≤ most_reload state.now settings.now) }
    ensures numbered { IsErrOf result PlanRefusal.NoGeneration ↔ (wanted.next_config state.now.generation ≡ None) }
    ensures not_large { IsErrOf result PlanRefusal.TooLarge → ⊥ }
    ensures planned { IsErrOf result PlanRefusal.Unplanned → ⊥ }
{
    let Some(generation) = next_config(state.generation) else {
        return Err(PlanRefusal::NoGeneration);
    };
    let _ = state.ready.len();
    let target = Target::Reload(*settings);
    let held = state.listeners.addresses();
    let added = settings.listeners.only_in(&held);
    let dropped = held.only_in(&settings.listeners);
    let rollout = roll_out(alloc, state, settings, surge)?;
    let last = listed(alloc, &rollout.last)?;
    let left = listed(alloc, &rollout.left)?;
    let renewal = SteppedRenewal {
        by: Actor(state.generation.image),
        asked,
        old: state.crew(),
        new: Crew {
            generation,
            posts: state.posts_wanted(&target),
        },
        rounds: state.retries,
        wanted: Numbers::below(settings.workers),
        last: &last,
        left: &left,
        dropped: dropped.as_slice(),
    };
    let mut draft = Draft::new(alloc);
    let first = add_renewal(
        alloc,
        &mut draft,
        &renewal,
        &state.ready,
        added.as_slice(),
        &rollout.steps,
    )?;
    let sides = state.sides(&target);
    Ok(draft.finish(first, state.note, &sides, Vec::new(alloc))?)
}
