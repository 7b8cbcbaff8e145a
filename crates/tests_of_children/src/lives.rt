//! What an edge hears of one worker in its life, and what comes of calls, where children are processes of the system.
use crate::setup::{
    Countable, Dialogue, FIRST, FamilyTrial, ask, below, edge_of, first_wrong, start, tried,
};
use child_edge::Edge;
use child_family::Family;
use listener_set::Numbers;
use std::alloc::Global;
use std::process::Abort;
use std::test::Fail;
use tests_of_processes::worker;
use vocabulary::{Answer, Call};

/// What an edge hears of one worker in its life, and how many processes are left then.
#[derive(Clone, Copy)]
pub(crate) struct WorkerLife {
    pub(crate) ready: Option<Answer>,
    pub(crate) beats: Numbers,
    pub(crate) counted: Option<Answer>,
    pub(crate) gone: Option<Answer>,
    pub(crate) left: usize,
}

impl WorkerLife {
    pub(crate) fn has_beats(&self, n: u32) -> bool {
        self.beats == below(n)
    }

    pub(crate) fn is_counted(&self, n: u32) -> bool {
        self.counted == Some(Answer::Counted(below(n)))
    }
}

/// Lets a worker go, and then its master.
fn end<F: Family + Drop>(edge: &mut Edge<F>) -> Option<Answer> {
    let _ = ask(edge, 1, Call::Quit(FIRST, 0));
    let gone = ask(edge, 1, Call::AwaitGone(FIRST, 0));
    let _ = ask(edge, 1, Call::Leave);
    gone
}

/// The life of a worker, but for what is left of it.
fn live<F: Family + Drop>(edge: &mut Edge<F>) -> WorkerLife {
    let ready = start(edge, 0);
    let beats = edge.tick_reigning(7);
    let counted = ask(edge, 1, Call::Census(FIRST));
    let gone = end(edge);
    WorkerLife {
        ready,
        beats,
        counted,
        gone,
        left: 0,
    }
}

/// A worker that does something at a word, and what an edge hears of it: whether it is ready, how many beat and are
/// counted, and whether it is gone.
#[derive(Clone, Copy)]
pub(crate) struct Case {
    pub(crate) word: &'static str,
    pub(crate) instead: &'static str,
    pub(crate) beats: u32,
    pub(crate) counted: u32,
    pub(crate) gone: Answer,
}

/// Whether a worker that was ready was heard as a case says.
fn is_heard_as(life: &WorkerLife, case: &Case) -> bool {
    life.has_beats(case.beats) && life.is_counted(case.counted) && life.gone == Some(case.gone)
}

/// What comes of a trial where workers are shells that do something at a word.
pub(crate) fn tried_on<T: FamilyTrial>(
    rt: &HostRuntime,
    word: &str,
    instead: &str,
    trial: &T,
) -> Result<T::Found, Fail> {
    let command = worker(rt.alloc(), word, instead)?;
    tried(rt, "none", command.as_slice(), trial)
}

/// The life of a worker, and what is left of it.
#[derive(Clone, Copy)]
struct OneLife;

impl FamilyTrial for OneLife {
    type Found = WorkerLife;

    fn on<F: Countable>(&self, alloc: Global, family: F) -> Result<WorkerLife, Fail> {
        let mut edge = edge_of(alloc, family)?;
        let life = live(&mut edge);
        Ok(WorkerLife {
            left: edge.family().left(),
            ..life
        })
    }
}

/// The life of a worker that does something at a word.
pub(crate) fn life_of(rt: &HostRuntime, word: &str, instead: &str) -> Result<WorkerLife, Fail> {
    tried_on(rt, word, instead, &OneLife)
}

/// Whether a worker that does as a case says is ready, heard as it says, and leaves no process.
pub(crate) fn is_met(rt: &HostRuntime, case: &Case) -> Result<bool, Fail> {
    let life = life_of(rt, case.word, case.instead)?;
    Ok(life.ready == Some(Answer::IsReady) && is_heard_as(&life, case) && life.left == 0)
}

/// What comes of calls: the place of the first that is answered in another way, where there is one, and how many
/// processes are left.
pub(crate) type Carried = (Option<usize>, usize);

/// What comes of calls, where a new master is handed a text.
#[derive(Clone, Copy)]
struct Carry<'a> {
    text: &'a [u8],
    calls: Dialogue<'a>,
}

impl FamilyTrial for Carry<'_> {
    type Found = Carried;

    fn on<F: Countable>(&self, alloc: Global, family: F) -> Result<Carried, Fail> {
        let mut edge = edge_of(alloc, family)?;
        edge.reserve(20, self.text)?;
        let wrong = first_wrong(&mut edge, self.calls);
        Ok((wrong, edge.family().left()))
    }
}

/// Stops the test where a call was answered in another way, or a process is left.
pub(crate) fn check_carried(rt: &impl Abort, carried: Carried, place: &str) {
    assert_eq!(rt; carried, (None, 0), "at {place}");
}

/// What comes of calls where workers are shells that do something at a word.
pub(crate) fn carried_on(
    rt: &HostRuntime,
    word: &str,
    instead: &str,
    calls: Dialogue,
) -> Result<Carried, Fail> {
    tried_on(rt, word, instead, &Carry { text: &[], calls })
}

/// What comes of calls where workers and masters run a program, and a new master is handed a text.
pub(crate) fn carried_over(
    rt: &HostRuntime,
    program: &str,
    text: &[u8],
    calls: Dialogue,
) -> Result<Carried, Fail> {
    tried(rt, program, &[], &Carry { text, calls })
}
