//! The edge: the calls of a plan, made on real children.
ghost use Rattle.std.specs.Prelude.{◌≡◌, ℕ, ◌≤◌, ◌<◌, ◌-◌, ◌+◌, ◌++◌, ◌∷◌, [], List, Option, max, IsTrue, IfOk, OnOk, OnErr, vec_len, vec_capacity};
ghost use Rattle.call_replies.specs.Replies.{is_listed};
ghost use Rattle.vocabulary.specs.declared.calls.Answer.TheVariants.{Counted};
ghost use Rattle.vocabulary.specs.declared.reports.Entry.{Entry};
ghost use Rattle.child_family.specs.Told.{Told};
ghost use Rattle.child_family.specs.Talk.{Held};
ghost use Rattle.child_edge.specs.State.{State, state_of};
ghost use Rattle.child_edge.specs.Table.{answers, turn_of, reigning_tick};
ghost use Rattle.child_edge.specs.EdgeLemmas.{CallsHeld-none};
ghost use Rattle.child_edge.specs.Edge.{begun, begun_by, begun_from, start_of, start_after, CallsHeld};
ghost use Rattle.child_edge.specs.Turns.{GoesOn};

use crate::each::{beat_each, say_each};
use crate::state::EdgeState;
use crate::{calling, passing};
use child_family::{Family, tick_line};
use child_workers::{Who, Worker};
use handover_text::Handover;
use listener_set::Numbers;
use master_listeners::Listeners;
use plan_walk::Calls;
use service_state::Record;
use std::alloc::{AllocError, Global};
use vocabulary::{Actor, Answer, Call};

/// Makes the calls of a plan on a family of real children. All memory that they need is taken beforehand, apart from
/// what the family itself takes.
#[derive(Drop)]
pub struct Edge<F: Family + Drop> {
    family: F,
    state: EdgeState,
    alloc: Global,
    room: u32,
    ghost roomy: { room ≤ vec_capacity state.workers - vec_len state.workers },
}

impl<F: Family + Drop> Edge<F> {
    /// The edge of a master of that image and process number, with no workers, and with room for no call.
    fn begun(
        alloc: Global,
        family: F,
        image: u32,
        pid: u32,
        listeners: &Listeners,
        adopted: bool,
    ) -> Edge<F>
        ensures state { state_of result.state ≡ begun image pid listeners.now adopted }
        ensures family { result.family ≡ family }
        ensures room { result.room ≡ 0 }
    {
        let state = EdgeState {
            image,
            pid,
            listeners: *listeners,
            workers: Vec::new(alloc),
            starts: 0,
            child: None,
            adopted,
            left: false,
            text: Vec::new(alloc),
        };
        Edge {
            family,
            state,
            alloc,
            room: 0,
        }
    }

    /// The same edge, with room for so many calls. The only refusal is want of memory.
    fn with_room(self, room: u32) -> Result<Edge<F>, AllocError>
        ensures state { IfOk result (λ e. state_of e.state ≡ state_of self.state) }
        ensures family { IfOk result (λ e. e.family ≡ self.family) }
        ensures room { IfOk result (λ e. e.room ≡ room) }
    {
        let mut edge = self;
        edge.state.workers.reserve(room as usize)?;
        edge.room = room;
        Ok(edge)
    }

    /// The edge of a master that runs by itself, with room for no call. It takes no memory.
    pub fn begin(alloc: Global, family: F, known: &Record) -> Edge<F>
        ensures state { state_of result.state ≡ begun_by known.now }
        ensures family { result.family ≡ family }
        ensures room { result.room ≡ 0 }
    {
        let image = known.generation.image;
        Edge::begun(alloc, family, image, known.pid, &known.listeners, false)
    }

    /// The edge of a master that runs by itself, with room for so many calls. The only refusal is want of memory.
    pub fn new(alloc: Global, family: F, known: &Record, room: u32) -> Result<Edge<F>, AllocError>
        ensures state { IfOk result (λ e. state_of e.state ≡ begun_by known.now) }
        ensures family { IfOk result (λ e. e.family ≡ family) }
        ensures room { IfOk result (λ e. e.room ≡ room) }
    {
        Edge::begin(alloc, family, known).with_room(room)
    }

    /// The edge of a new master of that process number which takes over, with room for so many calls. The only refusal is
    /// want of memory.
    pub fn adopt(
        alloc: Global,
        family: F,
        handover: &Handover,
        pid: u32,
        room: u32,
    ) -> Result<Edge<F>, AllocError>
        ensures state { IfOk result (λ e. state_of e.state ≡ begun_from handover.now pid) }
        ensures family { IfOk result (λ e. e.family ≡ family) }
        ensures room { IfOk result (λ e. e.room ≡ room) }
    {
        let image = handover.generation.image;
        let edge = Edge::begun(alloc, family, image, pid, &handover.listeners, true);
        edge.with_room(room)
    }

    /// The family of its children.
    pub fn family(&self) -> &F
        ensures { result.now ≡ self.now.family }
    {
        &self.family
    }

    /// The family of its children, when no more calls are to be made.
    pub fn into_family(self) -> F
        ensures { result ≡ self.family }
    {
        let Edge {
            family,
            state: _,
            alloc: _,
            room: _,
        } = self;
        family
    }

    /// Raises the room to so many calls where it is less, and keeps a copy of the handover's text. The only refusal is want
    /// of memory; nothing has changed then.
    pub fn reserve(&mut self, calls: u32, text: &[u8]) -> Result<(), AllocError>
        ensures state { OnOk result (state_of self.new.state ≡ record (state_of self.old.state) { text = text.now }) }
        ensures room { OnOk result (self.new.room ≡ max self.old.room calls) }
        ensures family { self.new.family ≡ self.old.family }
        ensures refused { OnErr result (self.new ≡ self.old) }
    {
        let kept = text.to_vec(self.alloc)?;
        let workers = &self.state.workers;
        if workers.capacity() - workers.len() < calls as usize {
            self.state.workers = with_spare(self.alloc, workers, calls)?;
        }
        self.state.text = kept;
        self.room = self.room.max(calls);
        Ok(())
    }

    /// Ticks the workers of the master that reigns: its own, or those of its child master once it has left itself. Each that
    /// is ready is told the moment, and then each is heard. Gives the numbers of those that beat then. A child master that
    /// does not count them is stopped.
    pub fn tick_reigning(&mut self, now: u64) -> Numbers
        ensures turn { Held (F.told self.old.family) (F.told self.new.family) (reigning_tick (state_of self.old.state) now) (state_of self.new.state, Counted result) }
        ensures room { self.new.room ≡ self.old.room }
    {
        if self.state.left {
            return passing::pass_tick(&mut self.family, &mut self.state, now);
        }
        let workers = &mut self.state.workers;
        let line = tick_line(now);
        say_each(&mut self.family, workers, Who::IsReady, line.bytes());
        beat_each(&mut self.family, workers, now)
    }

    /// The start that the last beat of a worker's number named.
    pub fn start_of(&self, nr: u32) -> Option<u32>
        ensures { result ≡ start_of nr self.now.state.workers.items }
    {
        start_of(&self.state.workers, nr)
    }
}

/// A copy of a list of workers, with room for so many more. The only refusal is want of memory.
fn with_spare(alloc: Global, workers: &[Worker], spare: u32) -> Result<Vec<Worker>, AllocError>
    ensures items { IfOk result (λ copy. copy.items ≡ workers.now) }
    ensures spare { IfOk result (λ copy. spare ≤ vec_capacity copy - vec_len copy) }
{
    let mut copy = workers.to_vec(alloc)?;
    copy.reserve(spare as usize)?;
    Ok(copy)
}

fn start_of(workers: &[Worker], nr: u32) -> Option<u32>
    ensures { result ≡ start_of nr workers.now }
{
    let mut found = None;
    for worker in workers {
        if Who::IsReady.means(worker) && worker.nr == nr && worker.beat.is_some() {
            found = worker.beat;
        }
    }
    found
}

impl<F: Family + Drop> Calls for Edge<F> {
    ghost room = { λ e. e.room };

    ghost follows = { λ first entries last. CallsHeld (F.told first.family) (F.told last.family) (state_of first.state) entries (state_of last.state) };

    ghost follows_none = { λ e. CallsHeld-none (F.told e.family) (state_of e.state) };

    fn room(&self) -> u32 {
        self.room
    }

    fn make(&mut self, by: Actor, call: &Call) -> Answer
        requires { 1 ≤ self.old.room }
        ensures turn { Held (F.told self.old.family) (F.told self.new.family) (turn_of (state_of self.old.state) by call.now) (state_of self.new.state, result) }
        ensures room { self.old.room ≤ self.new.room + 1 }
        ensures falls { self.new.room ≤ self.old.room }
        ensures listed { IsTrue (is_listed call.now result) }
        ensures follows { (told : Option (List Told)) (first : State) (entries : List Entry) → CallsHeld told (F.told self.old.family) first entries (state_of self.old.state)
            → CallsHeld told (F.told self.new.family) first (entries ++ (record { by = by; call = call.now; answer = result }) ∷ []) (state_of self.new.state) }
    {
        self.room -= 1;
        calling::make(&mut self.family, &mut self.state, by, call)
    }
}
