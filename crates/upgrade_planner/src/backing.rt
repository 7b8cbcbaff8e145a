//! The ways back to the old master.
ghost use Rattle.std.specs.Prelude.{◌+◌, ◌*◌, length, IfOk};
ghost use Rattle.vocabulary.specs.Settings.{HasSuffixRoom};
ghost use Rattle.vocabulary.specs.declared.plans.Side.TheVariants as side;
ghost use Rattle.definitions.specs.Plans.{settle, back_alone, back_from, back_late};
ghost use Rattle.rollback_plan.specs.Drafts.{IsMade, GrowsWithin};

use crate::pid_file::{Aside, add_cleared};
use crate::upgrade::Upgrade;
use plan_pieces::add_starts_any;
use rollback_plan::{Draft, DraftRefusal, Place};
use vocabulary::{Call, Side};

/// The ways back to the old master, which all end in the settle of its side.
#[derive(Clone, Copy)]
pub struct UpgradeWaysBack {
    /// Nothing was done.
    pub undone: Place,
    /// There is no new master: the pid file goes back to its path.
    pub alone: Place,
    /// The new master is stopped, and then the pid file goes back.
    pub stopped: Place,
    /// The new master is stopped, the old workers, which have gone, are started again, and then the pid file goes back.
    pub restarted: Place,
}

/// Adds that the new master is stopped and the old workers are started again, going on after a failure. Without such
/// workers that is the way back on which the new master is stopped, and nothing is added.
fn add_restart(
    draft: &mut Draft,
    upgrade: &Upgrade<'_>,
    alone: Place,
    stopped: Place,
) -> Result<Place, DraftRefusal>
    requires alone { IsMade draft.old alone (back_alone upgrade.now.old.crew.generation.image upgrade.now.old.crew upgrade.now.old.numbers upgrade.now.rounds upgrade.now.path) }
    requires stopped { IsMade draft.old stopped (back_from upgrade.now.old.crew.generation.image upgrade.now.new.crew.generation.image upgrade.now.old.crew upgrade.now.old.numbers upgrade.now.rounds upgrade.now.path) }
    ensures made { IfOk result (λ place. IsMade draft.new place (back_late upgrade.now.old.crew.generation.image upgrade.now.new.crew.generation.image upgrade.now.old.crew upgrade.now.old.numbers upgrade.now.rounds upgrade.now.path)) }
    ensures grows { GrowsWithin draft.old draft.new result (3 * length upgrade.now.old.numbers + 1) }
{
    let old = &upgrade.old;
    if upgrade.leaving.is_empty() {
        return Ok(stopped);
    }
    let starting = add_starts_any(draft, old.master(), &old.crew, upgrade.leaving, alone)?;
    let call = Call::TermMaster(upgrade.new.crew.generation.image);
    draft.call(old.master(), call, starting)
}

/// Adds the ways back to the old master.
pub fn add_ways_back(
    draft: &mut Draft,
    upgrade: &Upgrade<'_>,
) -> Result<UpgradeWaysBack, DraftRefusal>
    requires room { HasSuffixRoom upgrade.now.path }
    ensures undone { IfOk result (λ ways. IsMade draft.new ways.undone (settle upgrade.now.old.crew.generation.image upgrade.now.old.crew upgrade.now.old.numbers side.Old upgrade.now.rounds)) }
    ensures alone { IfOk result (λ ways. IsMade draft.new ways.alone (back_alone upgrade.now.old.crew.generation.image upgrade.now.old.crew upgrade.now.old.numbers upgrade.now.rounds upgrade.now.path)) }
    ensures stopped { IfOk result (λ ways. IsMade draft.new ways.stopped (back_from upgrade.now.old.crew.generation.image upgrade.now.new.crew.generation.image upgrade.now.old.crew upgrade.now.old.numbers upgrade.now.rounds upgrade.now.path)) }
    ensures restarted { IfOk result (λ ways. IsMade draft.new ways.restarted (back_late upgrade.now.old.crew.generation.image upgrade.now.new.crew.generation.image upgrade.now.old.crew upgrade.now.old.numbers upgrade.now.rounds upgrade.now.path)) }
    ensures grows { GrowsWithin draft.old draft.new result (4 * upgrade.now.rounds + 3 * length upgrade.now.old.numbers + 4) }
{
    let old = &upgrade.old;
    let by = old.master();
    let undone = draft.settle(by, &old.crew, &old.numbers, Side::Old, upgrade.rounds)?;
    let alone = add_cleared(draft, by, upgrade.path, Aside::Returns, undone)?;
    let term = Call::TermMaster(upgrade.new.crew.generation.image);
    let stopped = draft.call(by, term, alone)?;
    let restarted = add_restart(draft, upgrade, alone, stopped)?;
    Ok(UpgradeWaysBack {
        undone,
        alone,
        stopped,
        restarted,
    })
}
