//! The list of workers: upwards in number, and those of one number by their start.
ghost use Rattle.std.specs.Prelude.{◌≡◌, ◌≤◌, ◌<◌, ◌-◌, ◌+◌, vec_len, vec_capacity, length, nat_lt, find, position, unwrap_or};
ghost use Rattle.std.specs.List.{list_any};
ghost use Rattle.child_workers.specs.Workers.{means, in_place, without_id, moved_first, without_first};

use crate::who::Who;
use crate::worker::{Stage, Worker};

/// The first worker that is meant.
pub fn first(workers: &[Worker], who: Who) -> Option<Worker>
    ensures { result ≡ find (means who) workers.now }
{
    workers.iter().copied().find(|worker| who.means(worker))
}

/// Whether a worker is meant.
pub fn is_any(workers: &[Worker], who: Who) -> bool
    ensures { result ≡ list_any (means who) workers.now }
{
    workers.iter().any(|worker| who.means(worker))
}

/// Moves the first that is meant to a stage.
pub fn move_first(workers: &mut [Worker], who: Who, stage: Stage)
    ensures { workers.new ≡ moved_first who stage workers.old }
{
    for worker in workers.iter_mut() {
        if who.means(worker) {
            worker.stage = stage;
            return;
        }
    }
}

/// Takes the first that is meant out.
pub fn drop_first(workers: &mut Vec<Worker>, who: Who)
    ensures left { workers.new.items ≡ without_first who workers.old.items }
    ensures spare { vec_capacity workers.old - vec_len workers.old ≤ vec_capacity workers.new - vec_len workers.new }
{
    for at in 0..workers.len() {
        let worker = workers[at];
        if who.means(&worker) {
            workers.remove(at);
            return;
        }
    }
}

/// Takes those of a process number out.
pub fn drop_id(workers: &mut Vec<Worker>, id: u32)
    ensures left { workers.new.items ≡ without_id id workers.old.items }
    ensures spare { vec_capacity workers.old - vec_len workers.old ≤ vec_capacity workers.new - vec_len workers.new }
{
    workers.retain(|worker| worker.id != id);
}

/// The place of the first whose number is above; the length where there is none.
fn place_for(workers: &[Worker], nr: u32) -> usize
    ensures place { result ≡ unwrap_or (position (λ x. nat_lt nr x.nr) workers.now) (length workers.now) }
    ensures within { result ≤ length workers.now }
{
    match workers.iter().position(|other| nr < other.nr) {
        Some(place) => place,
        None => workers.len(),
    }
}

/// Puts a worker behind those whose number is not above its own.
pub fn put_in_place(workers: &mut Vec<Worker>, worker: Worker)
    requires { vec_len workers.old < vec_capacity workers.old }
    ensures list { workers.new.items ≡ in_place worker workers.old.items }
    ensures spare { vec_capacity workers.old - vec_len workers.old ≤ (vec_capacity workers.new - vec_len workers.new) + 1 }
{
    let place = place_for(workers, worker.nr);
    match workers.insert(place, worker) {
        Ok(()) => {}
        Err(_) => unreachable!(),
    }
}
