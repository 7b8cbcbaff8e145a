//! Children that are workers.
ghost use Rattle.std.specs.Prelude.{◌≡◌};

use listener_set::{Generation, Numbers, WORKER_LIMIT};

/// How far a worker has come.
#[derive(Clone, Copy, Debug, PartialEq, Eq)]
pub enum Stage {
    /// Started, and not yet ready.
    Starting,
    /// Serving.
    Ready,
    /// Told to quit.
    Draining,
}

/// A child that is a worker.
#[derive(Clone, Copy, Debug)]
pub struct Worker {
    /// Its number in the family.
    pub id: u32,
    pub generation: Generation,
    pub nr: u32,
    /// The number of its start, counted over all starts of the edge's workers from 1.
    pub start: u32,
    pub stage: Stage,
    /// The start that its last beat named, if it has beaten.
    pub beat: Option<u32>,
}

impl Worker {
    ghost use Rattle.child_workers.specs.Workers.{with_number_of};

    /// Adds its number to others, where it is below 1024.
    pub fn add_number(&self, numbers: &mut Numbers)
        ensures { numbers.new ≡ with_number_of self.now numbers.old }
    {
        if self.nr < WORKER_LIMIT {
            numbers.add(self.nr);
        }
    }
}
