//! Lines that wait, in a list of fixed size.
ghost use Rattle.std.specs.Prelude.{◌≡◌, ◌<◌, ◌≤◌, ◌++◌, ◌∷◌, [], length, drop, IsTrue, ◌↔◌};
ghost use Rattle.master_on_children.specs.Typed.{first_of, others_of};

use control_words::{Word, WordRefusal};
use std::marker::Model;

/// How many lines may wait.
pub(crate) const MOST_WAITING: usize = 64;

/// Lines that were read and not acted on yet, the first to come in front. They take no memory.
#[derive(Drop)]
pub(crate) struct Waiting {
    lines: [Result<Word, WordRefusal>; MOST_WAITING],
    count: usize,
}

impl Model for Waiting {
    ghost use Rattle.std.specs.Prelude.{◌≡◌, ◌≤◌, List, Result, length, take};
    ghost use Rattle.control_words.specs.declared.refusal.WordRefusal.{WordRefusal as Refusal};
    ghost use Rattle.control_words.specs.declared.words.Word.{Word as TheWord};

    ghost Value = { List (Result TheWord Refusal) };

    ghost view = { λ w. take w.count w.lines };

    ghost invariant = { λ w. (w.count ≤ 64) × (length w.lines ≡ 64) };
}

impl Waiting {
    /// None waits.
    pub(crate) fn none() -> Waiting
        ensures { result ≡ [] }
    {
        Waiting {
            lines: [Err(WordRefusal::Unknown); MOST_WAITING],
            count: 0,
        }
    }

    /// How many wait.
    pub(crate) fn len(&self) -> usize
        ensures count { result ≡ length self.now }
        ensures most { result ≤ 64 }
    {
        self.count
    }

    /// Puts a line behind the others.
    pub(crate) fn push(&mut self, line: Result<Word, WordRefusal>)
        requires { length self.old < 64 }
        ensures { self.new ≡ self.old ++ line ∷ [] }
    {
        self.lines[self.count] = line;
        self.count += 1;
    }

    /// Takes the first one out.
    pub(crate) fn take_first(&mut self) -> Option<Result<Word, WordRefusal>>
        ensures first { result ≡ first_of self.old }
        ensures others { self.new ≡ others_of self.old }
    {
        if self.count == 0 {
            return None;
        }
        let first = self.lines[0];
        self.lines.copy_within(1..self.count, 0);
        self.count -= 1;
        Some(first)
    }
}
