//! Names of masters and of whoever exits.
use listener_set::Generation;
use std::marker::Model;

/// A master, named by its image. Contracts see the image's number.
#[derive(Clone, Copy, Debug, PartialEq, Eq)]
pub struct Actor(pub u32);

impl Model for Actor {
    ghost use Rattle.std.specs.Prelude.{ℕ};

    ghost Value = { ℕ };

    ghost view = { λ a. a.0 };

    ghost inverse = { λ n. record { 0 = n } };
}

/// Whose exit comes before a call. A name that nobody bears is ignored.
#[derive(Clone, Copy, Debug, PartialEq, Eq)]
pub enum Name {
    /// The Starting or Ready worker of the generation with that number.
    Worker(Generation, u32),
    /// The Draining worker of the generation with that number; of several, the one that was started first.
    Draining(Generation, u32),
    /// The live master of the image.
    Master(u32),
}
