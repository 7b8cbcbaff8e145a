//! Where an upgrade puts the pid file.
ghost use Rattle.std.specs.Prelude.{◌<◌, length, IfOk};
ghost use Rattle.vocabulary.specs.Settings.{HasSuffixRoom};
ghost use Rattle.definitions.specs.Plans.{move_aside};
ghost use Rattle.rollback_plan.specs.Drafts.{trees_of, tree_at, IsMade, GrowsWithin};
ghost use Rattle.upgrade_planner.specs.Trees.{clearing};

use listener_set::{FilePath, Numbers};
use plan_pieces::add_file_call;
use rollback_plan::{Draft, DraftRefusal, Place, PlanEdge};
use vocabulary::{Actor, Call, Order, PidNote, Reply};

/// What becomes of the file at the path with the suffix, once it is settled which master stays.
#[derive(Clone, Copy)]
pub enum Aside {
    /// It goes back to its path: the old master stays.
    Returns,
    /// It is removed: the new master stays.
    Goes,
}

/// Adds the move of the pid file to the path with the suffix, where it is not there yet.
pub fn add_move_aside(
    draft: &mut Draft,
    by: Actor,
    path: Option<FilePath>,
    note: PidNote,
    moved: Place,
    failed: Place,
) -> Result<Place, DraftRefusal>
    requires moved { moved.0 < length (trees_of draft.old) }
    requires failed { failed.0 < length (trees_of draft.old) }
    requires room { HasSuffixRoom path }
    ensures made { IfOk result (λ place. IsMade draft.new place (move_aside by path note (tree_at draft.old moved) (tree_at draft.old failed))) }
    ensures grows { GrowsWithin draft.old draft.new result 1 }
{
    let Some(path) = path else {
        return Ok(moved);
    };
    match note {
        PidNote::AtOldbin => Ok(moved),
        PidNote::InPlace | PidNote::OldbinLeft | PidNote::Left | PidNote::NoFile => draft.add(
            by,
            Order::Make(Call::MovePid(path, path.oldbin())),
            &Numbers::none(),
            &[
                PlanEdge::to(&[Reply::Fine], moved),
                PlanEdge::to(&[Reply::IoFault], failed),
            ],
        ),
    }
}

/// Adds what becomes of the file at the path with the suffix, before the rest.
pub fn add_cleared(
    draft: &mut Draft,
    by: Actor,
    path: Option<FilePath>,
    aside: Aside,
    rest: Place,
) -> Result<Place, DraftRefusal>
    requires rest { rest.0 < length (trees_of draft.old) }
    requires room { HasSuffixRoom path }
    ensures made { IfOk result (λ place. IsMade draft.new place (clearing aside by path (tree_at draft.old rest))) }
    ensures grows { GrowsWithin draft.old draft.new result 1 }
{
    let Some(path) = path else {
        return Ok(rest);
    };
    let (call, fault) = match aside {
        Aside::Returns => (Call::MovePid(path.oldbin(), path), PidNote::AtOldbin),
        Aside::Goes => (Call::RemovePid(path.oldbin()), PidNote::OldbinLeft),
    };
    add_file_call(draft, by, call, Some(PidNote::InPlace), Some(fault), rest)
}
