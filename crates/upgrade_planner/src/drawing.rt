//! The steps of an upgrade.
ghost use Rattle.std.specs.Prelude.{◌≡◌, ◌≤◌, ◌<◌, ◌+◌, ◌*◌, ℕ, length, IfOk, IsErrOf, IsTrue, OnOk};
ghost use Rattle.vocabulary.specs.Settings.{HasSuffixRoom};
ghost use Rattle.vocabulary.specs.declared.calls.Call.TheVariants as call;
ghost use Rattle.definitions.specs.Run.{Ends, Split};
ghost use Rattle.definitions.specs.Plans.{back_late, does};
ghost use Rattle.call_laws.specs.Pieces.{spawn_edges};
ghost use Rattle.rollback_plan.specs.declared.draft.DraftRefusal.TheVariants.{TooLarge};
ghost use Rattle.rollback_plan.specs.declared.draft.TheConstants.{MOST_STEPS};
ghost use Rattle.rollback_plan.specs.Drafts.{trees_of, tree_at, splits_in, IsMade, Extends, GrowsWithin};
ghost use Rattle.upgrade_planner.specs.Trees.{old_image, new_image, way_back, AreInPlace, IsDrawn};

use crate::backing::{UpgradeWaysBack, add_ways_back};
use crate::pid_file::add_move_aside;
use crate::relieving::add_relief;
use crate::taking_over::{add_new_part, add_takeover};
use crate::upgrade::Upgrade;
use listener_set::Numbers;
use rollback_plan::{Draft, DraftRefusal, Next, Parts, Place, PlanEdge};
use vocabulary::{Call, Order, Reply};

/// Where an upgrade begins in a draft, and where the parts of both masters do.
#[derive(Clone, Copy)]
pub struct Drawn {
    pub first: Place,
    pub parts: Parts,
}

/// Adds the part of each master, and what follows where the new one's is ready.
fn add_parts(
    draft: &mut Draft,
    upgrade: &Upgrade<'_>,
    back: UpgradeWaysBack,
) -> Result<Parts, DraftRefusal>
    requires room { HasSuffixRoom upgrade.now.path }
    requires stopped { IsMade draft.old back.stopped (way_back upgrade.now) }
    requires restarted { IsMade draft.old back.restarted (back_late (old_image upgrade.now) (new_image upgrade.now) upgrade.now.old.crew upgrade.now.old.numbers upgrade.now.rounds upgrade.now.path) }
    ensures made { IfOk result (λ parts. AreInPlace draft.new upgrade.now parts) }
    ensures grows { GrowsWithin draft.old draft.new result (8 * upgrade.now.rounds + 6 * length upgrade.now.old.numbers + 2 * length upgrade.now.coming.now + length upgrade.now.dropped.now + length upgrade.now.added.now + 10) }
{
    let old = &upgrade.old;
    let relief = add_relief(draft, upgrade, back.stopped, back.restarted)?;
    let ready = add_takeover(draft, upgrade, relief, back.stopped)?;
    let coming = add_new_part(draft, upgrade)?;
    let staying = draft.mending(old.master(), &old.crew, &old.numbers, upgrade.rounds)?;
    Ok(Parts {
        new: coming,
        old: staying,
        ready,
        back: back.stopped,
    })
}

/// Adds the start of the new master, from which both masters go on, each with its part.
fn add_spawn(
    draft: &mut Draft,
    upgrade: &Upgrade<'_>,
    parts: &Parts,
    failed: Place,
) -> Result<Place, DraftRefusal>
    requires new { parts.now.new.0 < length (trees_of draft.old) }
    requires old { parts.now.old.0 < length (trees_of draft.old) }
    requires failed { failed.0 < length (trees_of draft.old) }
    ensures made { IfOk result (λ place. IsMade draft.new place (does (old_image upgrade.now) (call.SpawnMaster (new_image upgrade.now)) (spawn_edges (Ends Split) (tree_at draft.old failed)))) }
    ensures count { OnOk result (length (trees_of draft.new) ≡ length (trees_of draft.old) + 1) }
    ensures extends { Extends draft.old draft.new }
    ensures splits { IsTrue (splits_in parts.now.new.0 parts.now.old.0 draft.old) → IsTrue (splits_in parts.now.new.0 parts.now.old.0 draft.new) }
    ensures too_large { IsErrOf result TooLarge → MOST_STEPS < length (trees_of draft.old) + 1 }
{
    draft.add_split(
        upgrade.old.master(),
        Order::Make(Call::SpawnMaster(upgrade.new.crew.generation.image)),
        &Numbers::none(),
        &[
            PlanEdge::new(&[Reply::Spawned], Next::Both(parts.new, parts.old)),
            PlanEdge::to(&[Reply::Again, Reply::NoMemory, Reply::NoImage], failed),
        ],
    )
}

/// Adds an upgrade: the pid file goes aside and the new master is started, which starts workers of its own while the old
/// one replaces those that it loses; then the new one takes over, and the old one is relieved. Until then whatever fails
/// leads back to the old master.
pub fn add_upgrade(draft: &mut Draft, upgrade: &Upgrade<'_>) -> Result<Drawn, DraftRefusal>
    requires room { HasSuffixRoom upgrade.now.path }
    requires splits { (a : ℕ) (b : ℕ) → IsTrue (splits_in a b draft.old) }
    ensures made { IfOk result (λ drawn. IsDrawn draft.new upgrade.now drawn) }
    ensures count { OnOk result (length (trees_of draft.new) ≤ length (trees_of draft.old)
        + (12 * upgrade.now.rounds + 9 * length upgrade.now.old.numbers + 2 * length upgrade.now.coming.now + length upgrade.now.dropped.now + length upgrade.now.added.now + 16)) }
    ensures too_large { IsErrOf result TooLarge → MOST_STEPS < length (trees_of draft.old)
        + (12 * upgrade.now.rounds + 9 * length upgrade.now.old.numbers + 2 * length upgrade.now.coming.now + length upgrade.now.dropped.now + length upgrade.now.added.now + 16) }
{
    let by = upgrade.old.master();
    let back = add_ways_back(draft, upgrade)?;
    let parts = add_parts(draft, upgrade, back)?;
    let spawn = add_spawn(draft, upgrade, &parts, back.alone)?;
    let first = add_move_aside(draft, by, upgrade.path, upgrade.note, spawn, back.undone)?;
    Ok(Drawn { first, parts })
}
