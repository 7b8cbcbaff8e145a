//! Names that one worker bears at most: those of a master's generation, but for some numbers.
ghost use Rattle.std.specs.Prelude.{false, ◌≡◌, ◌<◌, ◌↔◌, List, ℕ, IsTrue, if◌then◌else◌};
ghost use Rattle.listener_set.specs.Numbers.{is_in, with_number};
ghost use Rattle.kernel_rows.specs.Seen.{seen_rows};
ghost use Rattle.kernel_table.specs.Lone.{AreLone};

use kernel_rows::{Holders, Stances, WorkerName};
use listener_set::{Generation, Numbers, WORKER_LIMIT};

/// The names of a master's generation, of which one worker at most bears each, in any stance. Of the doubled numbers
/// this is not known.
#[derive(Clone, Copy)]
pub struct LoneNames {
    pub parent: u32,
    pub generation: Generation,
    pub doubled: Numbers,
}

/// Counts a number that is met: one that was met before is doubled.
fn meet(once: &mut Numbers, doubled: &mut Numbers, nr: u32)
    requires { nr < WORKER_LIMIT }
    ensures once { once.new ≡ with_number once.old nr }
    ensures doubled { doubled.new ≡ (if is_in once.old nr then with_number doubled.old nr else doubled.old) }
{
    if once.has(nr) {
        doubled.add(nr);
    }
    once.add(nr);
}

impl LoneNames {
    /// The names of the master's generation; the numbers that two workers bear are doubled.
    pub fn among(holders: &Holders, parent: u32, generation: Generation) -> Self
        ensures parent { result.parent ≡ parent }
        ensures generation { result.generation ≡ generation }
        ensures lone { (addresses : List (List ℕ)) → AreLone result (seen_rows addresses holders.now.items) }
    {
        let mut once = Numbers::none();
        let mut doubled = Numbers::none();
        for holder in holders.iter() {
            if let Some(nr) = holder.row.worker_number(Stances::Any, parent, generation) {
                if nr < WORKER_LIMIT {
                    meet(&mut once, &mut doubled, nr);
                }
            }
        }
        LoneNames {
            parent,
            generation,
            doubled,
        }
    }

    /// Whether the name is of the master and generation.
    pub fn are_of(&self, name: WorkerName) -> bool
        ensures { IsTrue result ↔ (self.now.parent ≡ name.parent) × (self.now.generation ≡ name.generation) }
    {
        self.parent == name.parent && self.generation == name.generation
    }

    /// Whether one worker at most is known to bear the number.
    pub fn have(&self, nr: u32) -> bool
        ensures { IsTrue result ↔ (nr < WORKER_LIMIT) × (is_in self.now.doubled nr ≡ false) }
    {
        nr < WORKER_LIMIT && !self.doubled.has(nr)
    }
}
