//! Workers that are started.
ghost use Rattle.std.specs.Prelude.{◌≡◌, ◌≤◌, ◌<◌, ◌-◌, ◌+◌, IsTrue, vec_len, vec_capacity, Ok, find};
ghost use Rattle.call_replies.specs.Replies.{is_listed};
ghost use Rattle.vocabulary.specs.declared.calls.Call.TheVariants.{Fork, AwaitReady};
ghost use Rattle.child_edge.specs.State.{state_of};
ghost use Rattle.child_edge.specs.Table.{answers, forking, forked, greeted, given, new_worker, readying, readied, ready_or_gone};
ghost use Rattle.child_workers.specs.Workers.{means, in_place, without_id};
ghost use Rattle.child_edge.specs.Turns.{Begins, GoesOn};

use crate::saying::say_listeners;
use crate::state::EdgeState;
use child_family::{Family, Heard, Role, StartFault, worker_line};
use child_workers::{
    Stage, Who, Worker, drop_first, drop_id, first, is_any, move_first, put_in_place,
};
use listener_set::{DescriptorSet, Generation};
use master_listeners::Listeners;
use plain_text::Line;
use vocabulary::Answer;

/// The listeners that a worker is told: those under the descriptors that it is forked with, or all.
fn given(descriptors: &Option<DescriptorSet>, listeners: &Listeners) -> Listeners
    ensures { result ≡ given descriptors.now listeners.now }
{
    match descriptors {
        Some(set) => listeners.only(set),
        None => *listeners,
    }
}

/// Tells a worker that was started what it is and where it listens, and to go.
fn greet<F: Family>(family: &mut F, worker: &Worker, listeners: &Listeners)
    ensures { Begins (F.told family.old) (F.told family.new) (greeted worker.now listeners.now) }
{
    let line = worker_line(worker.generation, worker.nr, worker.start);
    family.say(worker.id, line.bytes());
    say_listeners(family, worker.id, listeners.as_slice());
    family.say(worker.id, b"go");
}

/// Takes up a worker that was started. A number that an old worker had is the new one's alone.
fn take_up(workers: &mut Vec<Worker>, worker: Worker)
    requires { vec_len workers.old < vec_capacity workers.old }
    ensures list { workers.new.items ≡ in_place worker (without_id worker.id workers.old.items) }
    ensures spare { vec_capacity workers.old - vec_len workers.old ≤ (vec_capacity workers.new - vec_len workers.new) + 1 }
{
    drop_id(workers, worker.id);
    put_in_place(workers, worker);
}

/// Starts a worker. Where no start is left the family is not asked.
pub(crate) fn fork<F: Family>(
    family: &mut F,
    state: &mut EdgeState,
    generation: Generation,
    nr: u32,
    descriptors: Option<DescriptorSet>,
) -> Answer
    requires { vec_len state.old.workers < vec_capacity state.old.workers }
    ensures turn { GoesOn (F.told family.old) (F.told family.new) (forking (state_of state.old) generation nr descriptors) (answers (state_of state.new) result) }
    ensures listed { IsTrue (is_listed (Fork generation nr descriptors) result) }
    ensures spare { vec_capacity state.old.workers - vec_len state.old.workers ≤ (vec_capacity state.new.workers - vec_len state.new.workers) + 1 }
{
    if state.starts == u32::MAX {
        return Answer::Again;
    }
    state.starts += 1;
    let start = state.starts;
    let id = match family.start(&Role::Worker {
        generation,
        nr,
        start,
    }) {
        Ok(id) => id,
        Err(StartFault::NoMemory) => return Answer::NoMemory,
        Err(StartFault::Again | StartFault::NoImage) => return Answer::Again,
    };
    let worker = Worker {
        id,
        generation,
        nr,
        start,
        stage: Stage::Starting,
        beat: None,
    };
    let listeners = given(&descriptors, &state.listeners);
    greet(family, &worker, &listeners);
    take_up(&mut state.workers, worker);
    Answer::Forked
}

/// Waits until a worker is ready: the first of the name that starts is heard.
pub(crate) fn await_ready<F: Family>(
    family: &mut F,
    state: &mut EdgeState,
    generation: Generation,
    nr: u32,
) -> Answer
    ensures turn { GoesOn (F.told family.old) (F.told family.new)
        (readying (state_of state.old) generation nr (find (means (Who.StartingNamed generation nr)) state.old.workers.items)) (answers (state_of state.new) result) }
    ensures listed { IsTrue (is_listed (AwaitReady generation nr) result) }
    ensures spare { vec_capacity state.old.workers - vec_len state.old.workers ≤ vec_capacity state.new.workers - vec_len state.new.workers }
{
    let who = Who::StartingNamed(generation, nr);
    let Some(worker) = first(&state.workers, who) else {
        return ready_or_gone(is_any(&state.workers, Who::ReadyNamed(generation, nr)));
    };
    let mut line = Line::new();
    match family.hear(worker.id, &mut line) {
        Heard::Line => {
            if line.bytes() == b"ready".as_slice() {
                move_first(&mut state.workers, who, Stage::Ready);
                Answer::IsReady
            } else {
                Answer::Late
            }
        }
        Heard::TooLong => Answer::Late,
        Heard::Ended => {
            family.stop(worker.id);
            drop_first(&mut state.workers, who);
            Answer::Gone
        }
    }
}

fn ready_or_gone(is_ready: bool) -> Answer
    ensures { result ≡ ready_or_gone is_ready }
{
    if is_ready {
        Answer::IsReady
    } else {
        Answer::Gone
    }
}
