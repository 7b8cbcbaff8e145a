//! How plans open sockets.
ghost use Rattle.std.specs.Prelude.{◌≡◌, ◌+◌, ◌<◌, List, [], length, reverse, take, IfOk, IsErrOf, IsTrue, OnOk};
ghost use Rattle.rollback_plan.specs.declared.draft.DraftRefusal.TheVariants.{TooLarge};
ghost use Rattle.rollback_plan.specs.declared.draft.TheConstants.{MOST_STEPS};
ghost use Rattle.definitions.specs.Table.{Address as AddressText};
ghost use Rattle.definitions.specs.Run.{Tree};
ghost use Rattle.definitions.specs.Plans as plans;
ghost use Rattle.rollback_plan.specs.Drafts.{trees_of, tree_at, are_places, IsMade, Keeps};
ghost use Rattle.rollback_plan.specs.Back.{AreMade};

use crate::attempting::add_attempts;
use listener_set::Address;
use rollback_plan::{Batch, Draft, DraftRefusal, Place};
use vocabulary::Actor;

/// Adds the opens of these addresses, in their order, before the rest. The i-th of the ways back
/// is taken where the first i addresses were opened and the next one cannot be. `TooLarge` only
/// where the draft would pass its most steps. A refused call may leave some of the steps.
pub fn add_opens(
    draft: &mut Draft,
    by: Actor,
    addresses: &[Address],
    rest: Place,
    ways_back: &[Place],
) -> Result<Place, DraftRefusal>
    requires rest { rest.0 < length (trees_of draft.old) }
    requires each { length ways_back.now ≡ length addresses.now + 1 }
    requires ways { IsTrue (are_places draft.old ways_back.now) }
    ensures made { IfOk result (λ place. (ok bad : List AddressText → Tree) → AreMade draft.old ways_back.now (length addresses.now) (λ i. bad (reverse (take i addresses.now)))
        → ok (reverse addresses.now) ≡ tree_at draft.old rest → IsMade draft.new place (plans.opens by addresses.now [] ok bad)) }
    ensures count { OnOk result (length (trees_of draft.new) ≡ length (trees_of draft.old) + length addresses.now) }
    ensures keeps { Keeps draft.old draft.new }
    ensures too_large { IsErrOf result TooLarge → MOST_STEPS < length (trees_of draft.old) + length addresses.now }
{
    add_attempts(draft, by, &Batch::Opens(addresses), rest, ways_back)
}
