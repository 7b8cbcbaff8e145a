//! How two masters that act side by side take turns.
ghost use Rattle.std.specs.Prelude.{◌≡◌, IfOk};
ghost use Rattle.master_on_children.specs.TakingTurns.{turns_by_turns};

use plan_walk::Turns;
use std::alloc::{AllocError, Global};
use vocabulary::Turn;

/// The turns of an upgrade: one after the other, the new master first, as long as the old one may have a step. It counts
/// its workers, and in each round it starts one, waits for it, kills it where it is late, and counts again.
pub(crate) fn turns_by_turns(alloc: Global, retries: u32) -> Result<Turns, AllocError>
    ensures { IfOk result (λ turns. turns ≡ turns_by_turns retries) }
{
    let mut turns = Turns::new(alloc);
    for _ in 0..1 + 4 * u64::from(retries) {
        turns.add(Turn::New)?;
        turns.add(Turn::Old)?;
    }
    Ok(turns)
}
