//! Names that no worker bears: of one master and generation all from a number on.
ghost use Rattle.std.specs.Prelude.{◌≡◌, ◌↔◌, ℕ, List, [], ◌∷◌, ◌++◌, IsTrue};
ghost use Rattle.definitions.specs.Table.{Hold, Process, Worker};
ghost use Rattle.kernel_rows.specs.Seen.{seen_rows};
ghost use Rattle.kernel_table.specs.Free.{AreFree, IsAmong};

use kernel_rows::{Holders, Stances, WorkerName};
use listener_set::Generation;
use vocabulary::Stance;

/// The names of a master's generation that have this number or a higher one.
#[derive(Clone, Copy)]
pub struct FreeNames {
    pub parent: u32,
    pub generation: Generation,
    pub first: u64,
}

impl FreeNames {
    /// The names above each Starting and Ready worker of the master's generation.
    pub fn among(holders: &Holders, parent: u32, generation: Generation) -> Self
        ensures parent { result.parent ≡ parent }
        ensures generation { result.generation ≡ generation }
        ensures free { (addresses : List (List ℕ)) → AreFree result (seen_rows addresses holders.now.items) }
    {
        let mut first = 0;
        for holder in holders.iter() {
            if let Some(nr) = holder
                .row
                .worker_number(Stances::Active, parent, generation)
            {
                first = u64::max(first, u64::from(nr) + 1);
            }
        }
        FreeNames {
            parent,
            generation,
            first,
        }
    }

    /// Whether the name is of the master and generation.
    fn are_of(&self, name: WorkerName) -> bool
        ensures { IsTrue result ↔ (self.now.parent ≡ name.parent) × (self.now.generation ≡ name.generation) }
    {
        self.parent == name.parent && self.generation == name.generation
    }

    /// Whether the name is one of these.
    pub fn have(&self, name: WorkerName) -> bool
        ensures { IsTrue result ↔ IsAmong name self.now }
    {
        self.are_of(name) && self.first <= u64::from(name.nr)
    }

    /// Those that are free once the last of the rows, a Starting worker, bears the name: of these what is left, where the
    /// name is of their master and generation, and otherwise those of its own.
    pub fn without(self, holders: &Holders, name: WorkerName) -> Self
        ensures parent { result.parent ≡ name.parent }
        ensures generation { result.generation ≡ name.generation }
        ensures free { (addresses : List (List ℕ)) (before : List Process) (n : ℕ) (hs : List Hold) → AreFree self before → seen_rows addresses holders.now.items ≡ before ++ Worker n name.parent name.generation name.nr Stance.Starting hs ∷ [] → AreFree result (seen_rows addresses holders.now.items) }
    {
        if !self.are_of(name) {
            return FreeNames::among(holders, name.parent, name.generation);
        }
        FreeNames {
            first: u64::max(self.first, u64::from(name.nr) + 1),
            ..self
        }
    }
}
