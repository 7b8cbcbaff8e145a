//! Calls that name a worker, in little room.
ghost use Rattle.std.specs.Prelude.{◌≡◌};
ghost use Rattle.plan_steps.specs.WorkerCalls.{kept_call, call_of_worker};

use crate::Errand;
use listener_set::Generation;
use std::marker::Model;
use vocabulary::Call;

/// What is asked of a worker: to start with all descriptors of its master, or something of one that was started.
#[derive(Clone, Copy, Debug)]
enum Asking {
    Fork,
    Other(Errand),
}

impl Asking {
    /// The call that asks it.
    fn call(self, generation: Generation, number: u32) -> Call
        ensures { result ≡ kept_call self generation number }
    {
        match self {
            Asking::Fork => Call::Fork(generation, number, None),
            Asking::Other(asked) => asked.call(generation, number),
        }
    }
}

/// A call that names a worker, without the room that a call with two paths or a set needs. Contracts see the call.
#[derive(Debug, Drop)]
pub struct WorkerCall {
    asking: Asking,
    generation: Generation,
    number: u32,
}

impl Model for WorkerCall {
    ghost use Rattle.vocabulary.specs.declared.calls.Call.{Call};
    ghost use Rattle.plan_steps.specs.WorkerCalls.{kept_call};

    ghost Value = { Call };

    ghost view = { λ w. kept_call w.asking w.generation w.number };
}

impl WorkerCall {
    /// The call, if it names a worker and no descriptors.
    pub fn of(call: &Call) -> Option<WorkerCall>
        ensures { result ≡ call_of_worker call.now }
    {
        let (asking, generation, number) = match call {
            Call::Fork(generation, number, None) => (Asking::Fork, *generation, *number),
            Call::AwaitReady(generation, number) => (
                Asking::Other(Errand::AwaitReady),
                *generation,
                *number,
            ),
            Call::Quit(generation, number) => (Asking::Other(Errand::Quit), *generation, *number),
            Call::Kill(generation, number) => (Asking::Other(Errand::Kill), *generation, *number),
            Call::AwaitGone(generation, number) => (
                Asking::Other(Errand::AwaitGone),
                *generation,
                *number,
            ),
            Call::Usr1(generation, number) => (Asking::Other(Errand::Usr1), *generation, *number),
            _ => return None,
        };
        Some(WorkerCall {
            asking,
            generation,
            number,
        })
    }

    /// The same call, kept once more.
    pub fn copy(&self) -> WorkerCall
        ensures { result ≡ self.now }
    {
        WorkerCall {
            asking: self.asking,
            generation: self.generation,
            number: self.number,
        }
    }

    /// The call itself.
    pub fn call(&self) -> Call
        ensures { result ≡ self.now }
    {
        self.asking.call(self.generation, self.number)
    }
}
