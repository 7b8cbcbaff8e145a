//! Which workers are meant.
ghost use Rattle.std.specs.Prelude.{◌≡◌};
ghost use Rattle.child_workers.specs.Workers.{means, is_starting, is_ready, is_serving_stage, has_name};

use crate::worker::{Stage, Worker};
use listener_set::Generation;

/// Which workers are meant. A serving one was not told to quit.
#[derive(Clone, Copy, Debug)]
pub enum Who {
    Any,
    Serving,
    IsReady,
    ReadyOf(Generation),
    Named(Generation, u32),
    ServingNamed(Generation, u32),
    StartingNamed(Generation, u32),
    ReadyNamed(Generation, u32),
}

fn is_starting(stage: Stage) -> bool
    ensures { result ≡ is_starting stage }
{
    match stage {
        Stage::Starting => true,
        Stage::Ready | Stage::Draining => false,
    }
}

fn is_ready(stage: Stage) -> bool
    ensures { result ≡ is_ready stage }
{
    match stage {
        Stage::Ready => true,
        Stage::Starting | Stage::Draining => false,
    }
}

fn is_serving_stage(stage: Stage) -> bool
    ensures { result ≡ is_serving_stage stage }
{
    match stage {
        Stage::Starting | Stage::Ready => true,
        Stage::Draining => false,
    }
}

fn has_name(generation: Generation, nr: u32, worker: &Worker) -> bool
    ensures { result ≡ has_name generation nr worker.now }
{
    worker.generation == generation && worker.nr == nr
}

impl Who {
    /// Whether a worker is among them.
    pub fn means(&self, worker: &Worker) -> bool
        ensures { result ≡ means self.now worker.now }
    {
        match self {
            Who::Any => true,
            Who::Serving => is_serving_stage(worker.stage),
            Who::IsReady => is_ready(worker.stage),
            Who::ReadyOf(generation) => {
                is_ready(worker.stage) && worker.generation == *generation
            }
            Who::Named(generation, nr) => has_name(*generation, *nr, worker),
            Who::ServingNamed(generation, nr) => {
                is_serving_stage(worker.stage) && has_name(*generation, *nr, worker)
            }
            Who::StartingNamed(generation, nr) => {
                is_starting(worker.stage) && has_name(*generation, *nr, worker)
            }
            Who::ReadyNamed(generation, nr) => {
                is_ready(worker.stage) && has_name(*generation, *nr, worker)
            }
        }
    }
}
