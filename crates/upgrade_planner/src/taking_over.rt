//! What the new master does on its own, and how it takes over.
ghost use Rattle.std.specs.Prelude.{◌≡◌, ◌≤◌, ◌<◌, ◌+◌, ◌*◌, length, IfOk, IsErrOf, IsTrue, OnOk};
ghost use Rattle.vocabulary.specs.declared.calls.Call.TheVariants as call;
ghost use Rattle.definitions.specs.Run.{Ends, JoinReady, JoinBack};
ghost use Rattle.definitions.specs.Plans.{pid_calls, tries, tries_all};
ghost use Rattle.plan_steps.specs.Steps.{tree_among};
ghost use Rattle.rollback_plan.specs.Drafts.{trees_of, tree_at, is_plain, IsMade, LeadsTo, GrowsWithin};
ghost use Rattle.upgrade_planner.specs.Trees.{staffing, coming_calls};

use crate::upgrade::Upgrade;
use listener_set::{FilePath, Numbers};
use plan_pieces::{add_tried, add_tried_all};
use rollback_plan::{Batch, Draft, DraftRefusal, Errand, Next, Place};
use vocabulary::{Actor, Call, End};

/// Adds that a new master writes its pid file, where there is one, before the rest and with a way back.
fn add_written(
    draft: &mut Draft,
    by: Actor,
    path: Option<FilePath>,
    rest: Place,
    back: Place,
) -> Result<Place, DraftRefusal>
    requires rest { rest.0 < length (trees_of draft.old) }
    requires back { back.0 < length (trees_of draft.old) }
    ensures made { IfOk result (λ place. IsMade draft.new place (tries_all by (pid_calls path call.WritePid) (tree_at draft.old rest) (tree_at draft.old back))) }
    ensures grows { GrowsWithin draft.old draft.new result 1 }
{
    let Some(path) = path else {
        return Ok(rest);
    };
    add_tried(
        draft,
        by,
        Call::WritePid(path),
        &Numbers::none(),
        Next::To(rest),
        Next::To(back),
    )
}

/// Adds that the new master, whose part has ended well, writes its pid and counts its workers, before what follows where
/// the count is full. Whatever fails leads back.
pub fn add_takeover(
    draft: &mut Draft,
    upgrade: &Upgrade<'_>,
    full: Place,
    back: Place,
) -> Result<Place, DraftRefusal>
    requires full { full.0 < length (trees_of draft.old) }
    requires back { back.0 < length (trees_of draft.old) }
    ensures made { IfOk result (λ place. IsMade draft.new place (tries_all upgrade.now.new.crew.generation.image (pid_calls upgrade.now.path call.WritePid)
        (tries upgrade.now.new.crew.generation.image (call.Census upgrade.now.new.crew.generation) upgrade.now.new.numbers (tree_at draft.old full) (tree_at draft.old back)) (tree_at draft.old back))) }
    ensures grows { GrowsWithin draft.old draft.new result 2 }
{
    let (by, crew) = (upgrade.new.master(), &upgrade.new.crew);
    let counting = add_tried(
        draft,
        by,
        Call::Census(crew.generation),
        &upgrade.new.numbers,
        Next::To(full),
        Next::To(back),
    )?;
    add_written(draft, by, upgrade.path, counting, back)
}

/// Adds that the new master forks its workers and waits for them, the last of what it does on its own.
fn add_staffing(draft: &mut Draft, upgrade: &Upgrade<'_>) -> Result<Next, DraftRefusal>
    ensures made { IfOk result (λ next. LeadsTo draft.new next (tries_all upgrade.now.new.crew.generation.image (staffing upgrade.now.new.crew upgrade.now.coming.now) (Ends JoinReady) (Ends JoinBack))) }
    ensures grows { GrowsWithin draft.old draft.new result (2 * length upgrade.now.coming.now) }
{
    let new = &upgrade.new;
    let (by, crew) = (new.master(), &new.crew);
    let (ready, back) = (Next::Over(End::JoinReady), Next::Over(End::JoinBack));
    let waits = Batch::Workers(Errand::AwaitReady, crew.generation, upgrade.coming);
    let forks = Batch::Forks(crew, upgrade.coming);
    let waiting = add_tried_all(draft, by, &waits, ready, back)?;
    add_tried_all(draft, by, &forks, waiting, back)
}

/// Adds the new master's part: it adopts what it was handed, closes what is listened on no more, opens what is added, and
/// then starts its workers. The part is ready after the last of these, and whatever fails ends it with the way back.
pub fn add_new_part(draft: &mut Draft, upgrade: &Upgrade<'_>) -> Result<Place, DraftRefusal>
    ensures made { IfOk result (λ place. IsMade draft.new place (tries_all upgrade.now.new.crew.generation.image (coming_calls upgrade.now.new.crew upgrade.now.dropped.now upgrade.now.added.now upgrade.now.coming.now) (Ends JoinReady) (Ends JoinBack))) }
    ensures grows { GrowsWithin draft.old draft.new result (2 * length upgrade.now.coming.now + length upgrade.now.dropped.now + length upgrade.now.added.now + 1) }
{
    let by = upgrade.new.master();
    let back = Next::Over(End::JoinBack);
    let staffing = add_staffing(draft, upgrade)?;
    let (opens, closes) = (Batch::Opens(upgrade.added), Batch::Closes(upgrade.dropped));
    let opening = add_tried_all(draft, by, &opens, staffing, back)?;
    let closing = add_tried_all(draft, by, &closes, opening, back)?;
    add_tried(draft, by, Call::Adopt, &Numbers::none(), closing, back)
}
