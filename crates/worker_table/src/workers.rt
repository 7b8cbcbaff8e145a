//! The table of workers.
ghost use Rattle.std.specs.Prelude.{◌≡◌, ◌<◌, ℕ, [], true, None, IfOk, IfSome, IfNone, OnSome, IsTrue, OnOk, OnErr};
ghost use Rattle.listener_set.specs.Numbers.{AreNumbers};
ghost use Rattle.worker_table.specs.Beats.{beat_of, last_beat, has_worker, numbers_in, with_beat, with_worker, without_worker, is_overdue, overdue_numbers, followed, IsLowestMissing};
ghost use Rattle.worker_table.specs.Calls.{adding, removing, beating};

use crate::TableRefusal;
use indexmap::IndexMap;
use listener_set::{Numbers, WORKER_LIMIT};
use std::alloc::{AllocError, Global};
use std::marker::Model;

/// The workers of a master, by their numbers from 0 to 1023, each with the moment of its last beat once it has beaten.
/// Contracts see the pairs of number and last beat, in ascending numbers.
#[derive(Drop)]
pub struct WorkerTable {
    // A number that is taken out stays as a key, with None, so that no number ever needs more room.
    places: IndexMap<u32, Option<Option<u64>>>,
}

impl Model for WorkerTable {
    ghost use Rattle.worker_table.specs.Beats.{Workers};
    ghost use Rattle.worker_table.specs.Places.{in_order, IsRoomy};

    ghost Value = { Workers };

    ghost view = { λ t. in_order t.places.entries };

    ghost invariant = { λ t. IsRoomy t.places };
}

impl WorkerTable {
    /// No workers, and room for each number: no later call takes memory.
    pub fn new(alloc: Global) -> Result<Self, AllocError>
        ensures { IfOk result (λ t. t ≡ []) }
    {
        Ok(WorkerTable {
            places: IndexMap::with_capacity(alloc, WORKER_LIMIT as usize)?,
        })
    }

    fn beat_of(&self, nr: u32) -> Option<Option<u64>>
        ensures beat { result ≡ beat_of self.now nr }
        ensures below { OnSome result (nr < WORKER_LIMIT) }
    {
        self.places.get(&nr).copied().flatten()
    }

    fn has(&self, nr: u32) -> bool
        ensures there { result ≡ has_worker self.now nr }
        ensures below { IsTrue result → nr < WORKER_LIMIT }
    {
        self.beat_of(nr).is_some()
    }

    fn last_beat(&self, nr: u32) -> Option<u64>
        ensures { result ≡ last_beat self.now nr }
    {
        self.beat_of(nr).flatten()
    }

    fn set(&mut self, nr: u32, beat: Option<Option<u64>>)
        requires { nr < WORKER_LIMIT }
        ensures { self.new ≡ with_beat self.old nr beat }
    {
        match self.places.get_mut(&nr) {
            Some(place) => *place = beat,
            None => match self.places.insert(nr, beat) {
                Ok(_) => (),
                Err(_) => unreachable!(),
            },
        }
    }

    /// Puts in a worker that has not beaten yet. A number above 1023 is refused as T2, one that is there as T1.
    pub fn add(&mut self, nr: u32) -> Result<(), TableRefusal>
        ensures answer { result ≡ adding self.old nr }
        ensures ok { OnOk result (self.new ≡ with_worker self.old nr None) }
        ensures err { OnErr result (self.new ≡ self.old) }
    {
        if nr >= WORKER_LIMIT {
            return Err(TableRefusal::TooHigh);
        }
        if self.has(nr) {
            return Err(TableRefusal::Taken);
        }
        self.set(nr, Some(None));
        Ok(())
    }

    /// Takes a worker out. One that is not there is refused as T3.
    pub fn remove(&mut self, nr: u32) -> Result<(), TableRefusal>
        ensures answer { result ≡ removing self.old nr }
        ensures ok { OnOk result (self.new ≡ without_worker self.old nr) }
        ensures err { OnErr result (self.new ≡ self.old) }
    {
        if !self.has(nr) {
            return Err(TableRefusal::NoSuch);
        }
        self.set(nr, None);
        Ok(())
    }

    /// Notes that a worker has beaten at `now`. One that is not there is refused as T3, a moment before its last beat
    /// as T4.
    pub fn beat(&mut self, nr: u32, now: u64) -> Result<(), TableRefusal>
        ensures answer { result ≡ beating self.old nr now }
        ensures ok { OnOk result (self.new ≡ with_worker self.old nr (Some now)) }
        ensures err { OnErr result (self.new ≡ self.old) }
    {
        match self.beat_of(nr) {
            None => return Err(TableRefusal::NoSuch),
            Some(Some(last)) if now < last => return Err(TableRefusal::Backwards),
            Some(_) => self.set(nr, Some(Some(now))),
        }
        Ok(())
    }

    /// The workers that have beaten, and whose last beat is more than `timeout` before `now`, in one unit of time.
    pub fn overdue(&self, now: u64, timeout: u32) -> Numbers
        ensures overdue { result ≡ overdue_numbers self.now now timeout }
        ensures numbers { AreNumbers WORKER_LIMIT (numbers_in self.now) }
    {
        let _places = &self.places;
        let mut overdue = Numbers::none();
        for nr in 0..WORKER_LIMIT {
            if is_overdue(now, timeout, self.last_beat(nr)) {
                overdue.add(nr);
            }
        }
        overdue
    }

    /// The lowest number below `n` that is not in the table.
    pub fn lowest_missing(&self, n: u32) -> Option<u32>
        ensures found { IfSome result (λ nr. IsLowestMissing self.now n nr) }
        ensures none { IfNone result ((k : ℕ) → k < n → has_worker self.now k ≡ true) }
    {
        for nr in 0..n {
            if !self.has(nr) {
                return Some(nr);
            }
        }
        None
    }

    /// Makes the workers those that are ready after a plan. One that is new, and one that the plan `started` anew, has
    /// not beaten; each other one keeps its last beat.
    pub fn follow(&mut self, ready: &Numbers, started: &Numbers)
        ensures { self.new ≡ followed self.old ready.now started.now }
    {
        // `len` says that the numbers are below the limit, which the proof cites.
        let _len = ready.len();
        let _places = &self.places;
        for nr in 0..WORKER_LIMIT {
            let beat = if started.has(nr) {
                None
            } else {
                self.last_beat(nr)
            };
            self.set(nr, ready.has(nr).then_some(beat));
        }
    }
}

/// Whether a worker has beaten, and `now` is more than `timeout` after its last beat.
fn is_overdue(now: u64, timeout: u32, last: Option<u64>) -> bool
    ensures { result ≡ is_overdue now timeout last }
{
    match last {
        None => false,
        Some(last) => last < now && u64::from(timeout) < now - last,
    }
}
