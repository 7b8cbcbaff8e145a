//! Calls of one kind.
ghost use Rattle.std.specs.Prelude.{◌≡◌, ◌<◌, Some, length, slice_get};
ghost use Rattle.definitions.specs.Master.{fork_of};
ghost use Rattle.plan_steps.specs.Batches.{asked_call, calls_of, size_of};

use listener_set::{Address, Generation};
use vocabulary::Call;
use worker_groups::Crew;

/// What is asked of a worker that was forked.
#[derive(Clone, Copy, Debug)]
pub enum Errand {
    AwaitReady,
    Quit,
    Kill,
    AwaitGone,
    Usr1,
}

impl Errand {
    /// The call that asks it.
    pub fn call(self, generation: Generation, number: u32) -> Call
        ensures { result ≡ asked_call self generation number }
    {
        match self {
            Errand::AwaitReady => Call::AwaitReady(generation, number),
            Errand::Quit => Call::Quit(generation, number),
            Errand::Kill => Call::Kill(generation, number),
            Errand::AwaitGone => Call::AwaitGone(generation, number),
            Errand::Usr1 => Call::Usr1(generation, number),
        }
    }
}

/// The call that starts a worker of a crew: with the descriptors of its group, where there are several.
pub fn fork_of(crew: &Crew, number: u32) -> Call
    ensures { result ≡ fork_of crew.now number }
{
    Call::Fork(crew.generation, number, crew.posts.given(number))
}

/// Calls of one kind, one for each of a list.
#[derive(Clone, Copy)]
pub enum Batch<'a> {
    Forks(&'a Crew, &'a [u32]),
    Workers(Errand, Generation, &'a [u32]),
    Opens(&'a [Address]),
    Closes(&'a [Address]),
}

impl Batch<'_> {
    /// How many calls there are.
    pub fn len(&self) -> usize
        ensures { result ≡ size_of self.now }
    {
        match self {
            Batch::Forks(_, numbers) | Batch::Workers(_, _, numbers) => numbers.len(),
            Batch::Opens(addresses) | Batch::Closes(addresses) => addresses.len(),
        }
    }

    /// The call at a place, counted from 0.
    pub fn get(&self, place: usize) -> Call
        requires { place < size_of self.now }
        ensures { slice_get (calls_of self.now) place ≡ Some result }
    {
        match self {
            Batch::Forks(crew, numbers) => fork_of(crew, at(numbers, place)),
            Batch::Workers(asked, generation, numbers) => asked.call(
                *generation,
                at(numbers, place),
            ),
            Batch::Opens(addresses) => Call::OpenAt(at(addresses, place)),
            Batch::Closes(addresses) => Call::CloseAt(at(addresses, place)),
        }
    }
}

/// The item at a place, counted from 0.
fn at<X: Copy>(items: &[X], place: usize) -> X
    requires { place < length items.now }
    ensures { slice_get items.now place ≡ Some result }
{
    items[place]
}
