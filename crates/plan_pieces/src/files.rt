//! How plans move and remove files.
ghost use Rattle.std.specs.Prelude.{◌≡◌, ◌+◌, ◌<◌, length, IfOk, IsErrOf, OnOk};
ghost use Rattle.rollback_plan.specs.declared.draft.DraftRefusal.TheVariants.{TooLarge};
ghost use Rattle.rollback_plan.specs.declared.draft.TheConstants.{MOST_STEPS};
ghost use Rattle.definitions.specs.Plans as plans;
ghost use Rattle.rollback_plan.specs.Drafts.{trees_of, tree_at, IsMade, Keeps};

use listener_set::Numbers;
use rollback_plan::{Draft, DraftRefusal, Next, Place, PlanEdge};
use vocabulary::{Actor, Call, Order, PidNote, Reply};

/// Adds a call that moves or removes a file before the rest, which follows whether or not it goes well: the pid file
/// then stands as `fine` says, or as `fault` says where the call fails. `TooLarge` only where the draft would pass its
/// most steps; a refused call leaves it as it was.
pub fn add_file_call(
    draft: &mut Draft,
    by: Actor,
    call: Call,
    fine: Option<PidNote>,
    fault: Option<PidNote>,
    rest: Place,
) -> Result<Place, DraftRefusal>
    requires { rest.0 < length (trees_of draft.old) }
    ensures made { IfOk result (λ place. IsMade draft.new place (plans.does by call (plans.note_edges fine fault (tree_at draft.old rest)))) }
    ensures count { OnOk result (length (trees_of draft.new) ≡ length (trees_of draft.old) + 1) }
    ensures keeps { Keeps draft.old draft.new }
    ensures too_large { IsErrOf result TooLarge → MOST_STEPS < length (trees_of draft.old) + 1 }
{
    let next = Next::To(rest);
    let edges = [
        PlanEdge {
            replies: &[Reply::Fine],
            note: fine,
            next,
        },
        PlanEdge {
            replies: &[Reply::IoFault],
            note: fault,
            next,
        },
    ];
    draft.add(by, Order::Make(call), &Numbers::none(), &edges)
}
