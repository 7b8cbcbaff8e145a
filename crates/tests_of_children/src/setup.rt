//! What tests begin with.
use child_edge::Edge;
use child_family::Family;
use child_processes::OsFamily;
use child_recorder::{FamilyCall, Recorded};
use listener_set::{Generation, Numbers};
use log::sink::Discard;
use plan_walk::Calls;
use service_state::Record;
use std::alloc::{AllocError, Global};
use std::test::Fail;
use vocabulary::{Actor, Answer, Call, Settings};

/// What the workers run.
pub(crate) const FIRST: Generation = Generation {
    image: 1,
    config: 1,
};

/// Masters' calls, each with who makes it and how it is answered.
pub(crate) type Dialogue<'a> = &'a [(u32, Call, Answer)];

/// A family whose children can be counted.
pub(crate) trait Countable: Family + Drop {
    /// How many children were not waited for.
    fn left(&self) -> usize;
}

impl Countable for OsFamily<&HostRuntime, Discard> {
    fn left(&self) -> usize {
        self.count()
    }
}

/// A family that tells the calls that were made on it.
pub(crate) trait Telling: Family + Drop {
    /// The calls that were made.
    fn calls_told(&self) -> &[FamilyCall];
}

impl Telling for Recorded {
    fn calls_told(&self) -> &[FamilyCall] {
        self.calls()
    }
}

/// What is tried on a family, whatever its children are. So no test is proved of processes, which takes longer.
pub(crate) trait FamilyTrial {
    /// What comes of it.
    type Found;

    /// Tries it on a family that has no children yet.
    fn on<F: Countable>(&self, alloc: Global, family: F) -> Result<Self::Found, Fail>;
}

/// What comes of a trial on processes: of workers that run a command, and masters that run a program.
pub(crate) fn tried<T: FamilyTrial>(
    rt: &HostRuntime,
    program: &str,
    command: &[String],
    trial: &T,
) -> Result<T::Found, Fail> {
    let family = OsFamily::new(rt.alloc(), rt, program, command)?;
    trial.on(rt.alloc(), family)
}

/// The edge of master 1, with process number 100, that listens on 0.0.0.0:8080.
pub(crate) fn edge_of<F: Family + Drop>(alloc: Global, family: F) -> Result<Edge<F>, AllocError> {
    let known = Record::start(&Settings::plain(), 2, &Numbers::none(), 100);
    Edge::new(alloc, family, &known, 100)
}

/// Makes a call for a master, where there is room for it.
pub(crate) fn ask<C: Calls>(calls: &mut C, by: u32, call: Call) -> Option<Answer> {
    if calls.room() == 0 {
        return None;
    }
    Some(calls.make(Actor(by), &call))
}

/// The place of the first call that is answered in another way, where there is one.
pub(crate) fn first_wrong<C: Calls>(edge: &mut C, calls: Dialogue) -> Option<usize> {
    for (place, (by, call, answer)) in calls.iter().enumerate() {
        if ask(edge, *by, *call) != Some(*answer) {
            return Some(place);
        }
    }
    None
}

/// Starts a worker of master 1, and waits until it is ready.
pub(crate) fn start<C: Calls>(edge: &mut C, nr: u32) -> Option<Answer> {
    let _ = ask(edge, 1, Call::Fork(FIRST, nr, None));
    ask(edge, 1, Call::AwaitReady(FIRST, nr))
}

/// The numbers below n.
pub(crate) fn below(n: u32) -> Numbers {
    let mut numbers = Numbers::none();
    for nr in 0..n.min(1024) {
        numbers.add(nr);
    }
    numbers
}

/// Whether just workers 0 and 1 beat at a tick, and each keeps the number of its start.
pub(crate) fn both_beat<F: Family + Drop>(edge: &mut Edge<F>, now: u64) -> bool {
    edge.tick_reigning(now) == below(2) && has_start(edge, 0, 1) && has_start(edge, 1, 2)
}

fn has_start<F: Family + Drop>(edge: &Edge<F>, nr: u32, start: u32) -> bool {
    edge.start_of(nr) == Some(start)
}

/// Whether just the workers below n are counted.
pub(crate) fn counts<C: Calls>(edge: &mut C, n: u32) -> bool {
    ask(edge, 1, Call::Census(FIRST)) == Some(Answer::Counted(below(n)))
}
