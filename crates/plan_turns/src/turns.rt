//! Lists of turns.
ghost use Rattle.std.specs.Prelude.{◌≡◌, ◌++◌, ◌∷◌, ◌↔◌, [], IsTrue, OnOk, OnErr, length, slice_get};

use std::alloc::{AllocError, Global};
use std::marker::Model;
use vocabulary::Turn;

/// Which master makes the next call, each time that both have one. Contracts see the list.
#[derive(Drop)]
pub struct Turns {
    items: Vec<Turn>,
}

impl Model for Turns {
    ghost use Rattle.std.specs.Prelude.{List};
    ghost use Rattle.definitions.specs.Plans.{Turn};

    ghost Value = { List Turn };

    ghost view = { λ t. t.items.items };
}

impl Turns {
    /// No turns: the new master goes on until its part has ended.
    pub fn new(alloc: Global) -> Self
        ensures { result ≡ [] }
    {
        Turns {
            items: Vec::new(alloc),
        }
    }

    /// Adds a turn behind the others. The only refusal is out of memory.
    pub fn add(&mut self, turn: Turn) -> Result<(), AllocError>
        ensures ok { OnOk result (self.new ≡ self.old ++ turn ∷ []) }
        ensures err { OnErr result (self.new ≡ self.old) }
    {
        self.items.push(turn)?;
        Ok(())
    }

    /// How many turns there are.
    pub fn len(&self) -> usize
        ensures { result ≡ length self.now }
    {
        self.items.len()
    }

    /// Whether there is none.
    pub fn is_empty(&self) -> bool
        ensures { IsTrue result ↔ (self.now ≡ []) }
    {
        self.items.is_empty()
    }

    /// The turn at a place, counted from 0; none after the end.
    pub fn get(&self, place: usize) -> Option<Turn>
        ensures { result ≡ slice_get self.now place }
    {
        self.items.get(place).copied()
    }
}
