//! How the old master is relieved, once the new one's workers are ready.
ghost use Rattle.std.specs.Prelude.{◌≡◌, ◌≤◌, ◌<◌, ◌+◌, ◌*◌, true, length, IfOk, IsErrOf, OnOk};
ghost use Rattle.vocabulary.specs.Settings.{HasSuffixRoom};
ghost use Rattle.definitions.specs.Plans.{asks, back_from, back_late, back_serving, hand_over, retire, relieve};
ghost use Rattle.rollback_plan.specs.Drafts.{trees_of, tree_at, IsMade, GrowsWithin};

use crate::pid_file::{Aside, add_cleared};
use crate::upgrade::Upgrade;
use listener_set::Numbers;
use plan_pieces::{add_each, add_starts_any};
use rollback_plan::{Batch, Draft, DraftRefusal, Errand, Place, PlanEdge};
use vocabulary::{Call, Order, Reply, Side};

/// Adds that the old master leaves; the new one removes the old file and settles.
fn add_hand_over(draft: &mut Draft, upgrade: &Upgrade<'_>) -> Result<Place, DraftRefusal>
    requires room { HasSuffixRoom upgrade.now.path }
    ensures made { IfOk result (λ place. IsMade draft.new place (hand_over upgrade.now.old.crew.generation.image upgrade.now.new.crew upgrade.now.rounds upgrade.now.path upgrade.now.workers)) }
    ensures grows { GrowsWithin draft.old draft.new result (4 * upgrade.now.rounds + 3) }
{
    let new = &upgrade.new;
    let (by, rounds) = (new.master(), upgrade.rounds);
    let settled = draft.settle(by, &new.crew, &new.numbers, Side::Target, rounds)?;
    let removing = add_cleared(draft, by, upgrade.path, Aside::Goes, settled)?;
    draft.call(upgrade.old.master(), Call::Leave, removing)
}

/// Adds that the old master leaves where the new one still lives. Where it does not, the way back is taken on which the
/// old workers are started again.
fn add_retiring(
    draft: &mut Draft,
    upgrade: &Upgrade<'_>,
    restarted: Place,
) -> Result<Place, DraftRefusal>
    requires room { HasSuffixRoom upgrade.now.path }
    requires restarted { IsMade draft.old restarted (back_late upgrade.now.old.crew.generation.image upgrade.now.new.crew.generation.image upgrade.now.old.crew upgrade.now.old.numbers upgrade.now.rounds upgrade.now.path) }
    ensures made { IfOk result (λ place. IsMade draft.new place (retire upgrade.now.old.crew.generation.image upgrade.now.old.crew upgrade.now.new.crew upgrade.now.old.numbers upgrade.now.rounds upgrade.now.path upgrade.now.workers)) }
    ensures grows { GrowsWithin draft.old draft.new result (4 * upgrade.now.rounds + 4) }
{
    let leaving = add_hand_over(draft, upgrade)?;
    let lives = Order::Make(Call::Alive(upgrade.new.crew.generation.image));
    let here = PlanEdge::to(&[Reply::IsAlive], leaving);
    let gone = PlanEdge::to(&[Reply::Gone], restarted);
    draft.add(upgrade.old.master(), lives, &Numbers::none(), &[here, gone])
}

/// Adds a question to the operator, whether to go on or back. An upgrade that is not attended goes on without one.
fn add_question(
    draft: &mut Draft,
    upgrade: &Upgrade<'_>,
    question: u32,
    on: Place,
    back: Place,
) -> Result<Place, DraftRefusal>
    requires on { on.0 < length (trees_of draft.old) }
    requires back { back.0 < length (trees_of draft.old) }
    ensures made { IfOk result (λ place. IsMade draft.new place (asks upgrade.now.attended upgrade.now.old.crew.generation.image question (tree_at draft.old on) (tree_at draft.old back))) }
    ensures grows { GrowsWithin draft.old draft.new result 1 }
{
    if !upgrade.attended {
        return Ok(on);
    }
    let order = Order::Make(Call::Ask(question));
    let go = PlanEdge::to(&[Reply::Go], on);
    let returns = PlanEdge::to(&[Reply::Back], back);
    draft.add(
        upgrade.old.master(),
        order,
        &Numbers::none(),
        &[go, returns],
    )
}

/// Adds the way back from the second question, on which the old workers are started again before the new master is
/// stopped. An upgrade that is not attended has none, and nothing is added.
fn add_return(
    draft: &mut Draft,
    upgrade: &Upgrade<'_>,
    stopped: Place,
) -> Result<Place, DraftRefusal>
    requires stopped { IsMade draft.old stopped (back_from upgrade.now.old.crew.generation.image upgrade.now.new.crew.generation.image upgrade.now.old.crew upgrade.now.old.numbers upgrade.now.rounds upgrade.now.path) }
    ensures made { IfOk result (λ place. (upgrade.now.attended ≡ true) → IsMade draft.new place (back_serving upgrade.now.old.crew.generation.image upgrade.now.new.crew.generation.image upgrade.now.old.crew upgrade.now.old.numbers upgrade.now.rounds upgrade.now.path)) }
    ensures place { IfOk result (λ place. place.0 < length (trees_of draft.new)) }
    ensures grows { GrowsWithin draft.old draft.new result (3 * length upgrade.now.old.numbers) }
{
    if !upgrade.attended {
        return Ok(stopped);
    }
    let old = &upgrade.old;
    add_starts_any(draft, old.master(), &old.crew, upgrade.leaving, stopped)
}

/// Adds what comes once the old workers are gone: the second question of an attended upgrade, and then the old master
/// leaves where the new one still lives.
fn add_last(
    draft: &mut Draft,
    upgrade: &Upgrade<'_>,
    stopped: Place,
    restarted: Place,
) -> Result<Place, DraftRefusal>
    requires room { HasSuffixRoom upgrade.now.path }
    requires stopped { IsMade draft.old stopped (back_from upgrade.now.old.crew.generation.image upgrade.now.new.crew.generation.image upgrade.now.old.crew upgrade.now.old.numbers upgrade.now.rounds upgrade.now.path) }
    requires restarted { IsMade draft.old restarted (back_late upgrade.now.old.crew.generation.image upgrade.now.new.crew.generation.image upgrade.now.old.crew upgrade.now.old.numbers upgrade.now.rounds upgrade.now.path) }
    ensures made { IfOk result (λ place. IsMade draft.new place (asks upgrade.now.attended upgrade.now.old.crew.generation.image 2
        (retire upgrade.now.old.crew.generation.image upgrade.now.old.crew upgrade.now.new.crew upgrade.now.old.numbers upgrade.now.rounds upgrade.now.path upgrade.now.workers)
        (back_serving upgrade.now.old.crew.generation.image upgrade.now.new.crew.generation.image upgrade.now.old.crew upgrade.now.old.numbers upgrade.now.rounds upgrade.now.path))) }
    ensures grows { GrowsWithin draft.old draft.new result (4 * upgrade.now.rounds + 3 * length upgrade.now.old.numbers + 5) }
{
    let retiring = add_retiring(draft, upgrade, restarted)?;
    let returning = add_return(draft, upgrade, stopped)?;
    add_question(draft, upgrade, 2, retiring, returning)
}

/// Adds that the old workers quit and are waited for, and that the old master leaves where the new one still lives. An
/// attended upgrade asks the operator before they quit and once they are gone.
pub fn add_relief(
    draft: &mut Draft,
    upgrade: &Upgrade<'_>,
    stopped: Place,
    restarted: Place,
) -> Result<Place, DraftRefusal>
    requires room { HasSuffixRoom upgrade.now.path }
    requires stopped { IsMade draft.old stopped (back_from upgrade.now.old.crew.generation.image upgrade.now.new.crew.generation.image upgrade.now.old.crew upgrade.now.old.numbers upgrade.now.rounds upgrade.now.path) }
    requires restarted { IsMade draft.old restarted (back_late upgrade.now.old.crew.generation.image upgrade.now.new.crew.generation.image upgrade.now.old.crew upgrade.now.old.numbers upgrade.now.rounds upgrade.now.path) }
    ensures made { IfOk result (λ place. IsMade draft.new place (relieve upgrade.now.attended upgrade.now.old.crew.generation.image upgrade.now.old.crew upgrade.now.new.crew upgrade.now.old.numbers upgrade.now.rounds upgrade.now.path upgrade.now.workers)) }
    ensures grows { GrowsWithin draft.old draft.new result (4 * upgrade.now.rounds + 6 * length upgrade.now.old.numbers + 6) }
{
    let old = &upgrade.old;
    let by = old.master();
    let last = add_last(draft, upgrade, stopped, restarted)?;
    let waits = Batch::Workers(Errand::AwaitGone, old.crew.generation, upgrade.leaving);
    let quits = Batch::Workers(Errand::Quit, old.crew.generation, upgrade.leaving);
    let waiting = add_each(draft, by, &waits, last)?;
    let quitting = add_each(draft, by, &quits, waiting)?;
    add_question(draft, upgrade, 1, quitting, stopped)
}
