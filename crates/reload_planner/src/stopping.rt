//! The plan that ends all workers and the master.
ghost use Rattle.std.specs.Prelude.{◌≡◌, ◌≤◌, ◌<◌, ◌+◌, ◌*◌, List, [], None, length, IfOk, IsErrOf, IsOkUnless, OnOk};
ghost use Rattle.vocabulary.specs.Settings.{HasSuffixRoom};
ghost use Rattle.definitions.specs.Plans.{Turn, stop_tree, stopped, removes};
ghost use Rattle.definitions.specs.Plans as plans;
ghost use Rattle.rollback_plan.specs.declared.draft.DraftRefusal.TheVariants.{TooLarge};
ghost use Rattle.rollback_plan.specs.declared.draft.TheConstants.{MOST_STEPS};
ghost use Rattle.rollback_plan.specs.Drafts.{trees_of, tree_at, IsMade, Grows, GrowsWithin};
ghost use Rattle.call_laws.specs.Lengths.{height};
ghost use Rattle.rollback_plan.specs.Plans.{tree_of, tree_under, length_of, parts_of, note_of, sides_told, text_of, trees_in};
ghost use Rattle.reload_planner.specs.Changes.{ends_tree};

use crate::{PlanRefusal, Scene};
use listener_set::{FilePath, Numbers};
use plan_pieces::{add_each, add_file_call, listed};
use rollback_plan::{Batch, Draft, DraftRefusal, Errand, Place, Plan, PlanEdge};
use std::alloc::Global;
use vocabulary::{Actor, Call, End, Order, PidNote, Reply};

/// Whether a file stands at the path with the suffix.
fn has_oldbin(note: PidNote) -> bool
    ensures { result ≡ plans.has_oldbin note }
{
    match note {
        PidNote::AtOldbin | PidNote::OldbinLeft => true,
        PidNote::InPlace | PidNote::Left | PidNote::NoFile => false,
    }
}

/// Adds that the master leaves, which ends the plan.
fn add_leave(draft: &mut Draft, by: Actor) -> Result<Place, DraftRefusal>
    ensures made { IfOk result (λ place. IsMade draft.new place (stopped by)) }
    ensures grows { Grows draft.old draft.new result 1 }
{
    draft.add(
        by,
        Order::Make(Call::Leave),
        &Numbers::none(),
        &[PlanEdge::over(&[Reply::Fine], End::Done)],
    )
}

/// Adds the removal of the pid files before the rest: of the path, and of the one with the suffix
/// where the note says that it is there.
fn add_removes(
    draft: &mut Draft,
    by: Actor,
    path: Option<FilePath>,
    note: PidNote,
    rest: Place,
) -> Result<Place, DraftRefusal>
    requires rest { rest.0 < length (trees_of draft.old) }
    requires room { HasSuffixRoom path }
    ensures made { IfOk result (λ place. IsMade draft.new place (removes by path note (tree_at draft.old rest))) }
    ensures grows { GrowsWithin draft.old draft.new result 2 }
{
    let Some(path) = path else {
        return Ok(rest);
    };
    let left = Some(PidNote::Left);
    let mut next = rest;
    if has_oldbin(note) {
        let call = Call::RemovePid(path.oldbin());
        next = add_file_call(draft, by, call, None, left, next)?;
    }
    let call = Call::RemovePid(path);
    add_file_call(draft, by, call, Some(PidNote::NoFile), left, next)
}

/// Adds the ends of these workers before the rest: they are killed upwards where it is to be quick,
/// and else they quit downwards and are waited for.
fn add_ends(
    draft: &mut Draft,
    scene: &Scene,
    ready: &[u32],
    quick: bool,
    rest: Place,
) -> Result<Place, DraftRefusal>
    requires { rest.0 < length (trees_of draft.old) }
    ensures made { IfOk result (λ place. IsMade draft.new place (ends_tree scene.now.by scene.now.crew.generation ready.now quick (tree_at draft.old rest))) }
    ensures count { OnOk result (length (trees_of draft.new) ≤ length (trees_of draft.old) + 3 * length ready.now) }
    ensures too_large { IsErrOf result TooLarge → MOST_STEPS < length (trees_of draft.old) + 3 * length ready.now }
{
    let (by, generation) = (scene.by, scene.crew.generation);
    if quick {
        let kills = Batch::Workers(Errand::Kill, generation, ready);
        return add_each(draft, by, &kills, rest);
    }
    let waits = Batch::Workers(Errand::AwaitGone, generation, ready);
    let quits = Batch::Workers(Errand::Quit, generation, ready);
    let waiting = add_each(draft, by, &waits, rest)?;
    add_each(draft, by, &quits, waiting)
}

/// Adds the ends of these workers, the removal of the pid files, and that the master leaves.
fn add_stop(
    draft: &mut Draft,
    scene: &Scene,
    ready: &[u32],
    path: Option<FilePath>,
    note: PidNote,
    quick: bool,
) -> Result<Place, DraftRefusal>
    requires room { HasSuffixRoom path }
    ensures made { IfOk result (λ place. IsMade draft.new place (stop_tree scene.now.by scene.now.crew.generation ready.now path note quick)) }
    ensures count { OnOk result (length (trees_of draft.new) ≤ length (trees_of draft.old) + 3 * length ready.now + 3) }
    ensures too_large { IsErrOf result TooLarge → MOST_STEPS < length (trees_of draft.old) + 3 * length ready.now + 3 }
{
    let leaving = add_leave(draft, scene.by)?;
    let removing = add_removes(draft, scene.by, path, note, leaving)?;
    add_ends(draft, scene, ready, quick, removing)
}

/// The plan of a stop: the ready workers quit downwards and are waited for, or are killed at once
/// where it is quick; the pid files are removed, and the master leaves. It ends well whatever is
/// answered. Only `Memory` is refused: no such plan is too large.
pub fn plan_stop(
    alloc: Global,
    scene: &Scene,
    path: Option<FilePath>,
    note: PidNote,
    quick: bool,
) -> Result<Plan, PlanRefusal>
    requires room { HasSuffixRoom path }
    ensures tree { IfOk result (λ plan. (turns : List Turn) → tree_under plan turns ≡ stop_tree scene.now.by scene.now.crew.generation scene.now.ready path note quick) }
    ensures longest { IfOk result (λ plan. length_of plan ≡ height (tree_of plan)) }
    ensures alone { IfOk result (λ plan. parts_of plan ≡ None) }
    ensures note { IfOk result (λ plan. note_of plan ≡ note) }
    ensures sides { IfOk result (λ plan. sides_told plan ≡ scene.now.sides) }
    ensures text { IfOk result (λ plan. text_of plan ≡ []) }
    ensures few { IfOk result (λ plan. length (trees_in plan) ≤ 3 * length scene.now.ready + 3) }
    ensures memory { IsOkUnless result PlanRefusal.Memory }
{
    let ready = listed(alloc, &scene.ready)?;
    let mut draft = Draft::new(alloc);
    let first = add_stop(&mut draft, scene, &ready, path, note, quick)?;
    Ok(draft.finish(first, note, &scene.sides, Vec::new(alloc))?)
}
