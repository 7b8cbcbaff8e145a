//! Edges over processes of the system. Each child ends with its input, or is stopped by the edge.
use crate::lives::{Case, WorkerLife, carried_over, check_carried, is_met, life_of, tried_on};
use crate::setup::{Countable, FIRST, FamilyTrial, ask, below, both_beat, counts, edge_of, start};
use child_edge::Edge;
use child_family::Family;
use listener_set::FilePath;
use plan_walk::Calls;
use std::alloc::Global;
use std::process;
use std::test::Fail;
use vocabulary::{Answer, Call};

/// What a child does in place of an answer: it ends, closes its output, says another line, or one that is too long.
const FAULTS: [&str; 4] = [
    "exit 3",
    "exec >&-",
    "echo other",
    "head -c 5000 /dev/zero | tr '\\0' a; echo",
];

/// Starts the workers 0 and 1.
fn start_two<C: Calls>(edge: &mut C) -> bool {
    start(edge, 0) == Some(Answer::IsReady) && start(edge, 1) == Some(Answer::IsReady)
}

/// Whether a worker ends as it is told to.
fn quits<C: Calls>(edge: &mut C, nr: u32) -> bool {
    ask(edge, 1, Call::Quit(FIRST, nr)) == Some(Answer::Fine)
        && ask(edge, 1, Call::AwaitGone(FIRST, nr)) == Some(Answer::Gone)
}

/// Whether two workers beat at two ticks, and are counted.
fn both_beat_twice<F: Family + Drop>(edge: &mut Edge<F>) -> bool {
    both_beat(edge, 7) && both_beat(edge, 8) && counts(edge, 2)
}

/// What comes of two workers, and how many processes are left then.
#[derive(Clone, Copy)]
struct Two {
    are_ready: bool,
    have_beaten: bool,
    have_quit: bool,
    left: usize,
}

/// Two workers that start, beat at two ticks, and quit.
#[derive(Clone, Copy)]
struct TwoLives;

impl FamilyTrial for TwoLives {
    type Found = Two;

    fn on<F: Countable>(&self, alloc: Global, family: F) -> Result<Two, Fail> {
        let mut edge = edge_of(alloc, family)?;
        Ok(Two {
            are_ready: start_two(&mut edge),
            have_beaten: both_beat_twice(&mut edge),
            have_quit: quits(&mut edge, 0) && quits(&mut edge, 1),
            left: edge.family().left(),
        })
    }
}

#[test]
fn two_children_answer_two_ticks(rt: HostRuntime) -> Result<(), Fail> {
    let two = tried_on(&rt, "none", "exit 1", &TwoLives)?;
    assert!(rt; two.are_ready);
    assert!(rt; two.have_beaten);
    assert!(rt; two.have_quit);
    assert_eq!(rt; two.left, 0);
    Ok(())
}

/// The first two faults end a child; one that is late goes on.
fn ends(fault: usize) -> bool {
    fault < 2
}

/// What is heard of a child that is to answer.
fn gone_or_late(fault: usize) -> Option<Answer> {
    if ends(fault) {
        Some(Answer::Gone)
    } else {
        Some(Answer::Late)
    }
}

/// Whether a worker was ready so, and neither beat nor was counted: one that is late never is. No process is left.
fn is_missed(life: &WorkerLife, ready: Option<Answer>) -> bool {
    life.ready == ready && life.has_beats(0) && life.is_counted(0) && life.left == 0
}

#[test]
fn hears_faults_at_go(rt: HostRuntime) -> Result<(), Fail> {
    for (at, fault) in FAULTS.iter().enumerate() {
        let life = life_of(&rt, "go", fault)?;
        assert!(rt; is_missed(&life, gone_or_late(at)), "at {fault}");
    }
    Ok(())
}

/// Whether a worker beat, but was not counted, and then gone so. No process is left.
fn is_lost(life: &WorkerLife, gone: Option<Answer>) -> bool {
    life.has_beats(1) && life.is_counted(0) && life.gone == gone && life.left == 0
}

#[test]
fn hears_faults_at_ping(rt: HostRuntime) -> Result<(), Fail> {
    for fault in FAULTS {
        let life = life_of(&rt, "ping", fault)?;
        assert!(rt; is_lost(&life, Some(Answer::Gone)), "at {fault}");
    }
    Ok(())
}

/// A worker whose beat is not heard is left as it is: one that goes on is counted.
fn counted_at_tick(fault: usize) -> Option<Answer> {
    let counted = if ends(fault) { 0 } else { 1 };
    Some(Answer::Counted(below(counted)))
}

/// Whether no beat came, and the workers are counted so. No process is left.
fn has_no_beat(life: &WorkerLife, counted: Option<Answer>) -> bool {
    life.has_beats(0) && life.counted == counted && life.left == 0
}

#[test]
fn hears_faults_at_tick(rt: HostRuntime) -> Result<(), Fail> {
    for (at, fault) in FAULTS.iter().enumerate() {
        let life = life_of(&rt, "tick", fault)?;
        assert!(rt; has_no_beat(&life, counted_at_tick(at)), "at {fault}");
    }
    Ok(())
}

/// Whether a worker was counted, and then gone so. No process is left.
fn is_counted_once(life: &WorkerLife, gone: Option<Answer>) -> bool {
    life.is_counted(1) && life.gone == gone && life.left == 0
}

#[test]
fn hears_faults_at_quit(rt: HostRuntime) -> Result<(), Fail> {
    for (at, fault) in FAULTS.iter().enumerate() {
        let life = life_of(&rt, "quit", fault)?;
        assert!(rt; is_counted_once(&life, gone_or_late(at)), "at {fault}");
    }
    Ok(())
}

/// The second answer is taken for that to the next line.
const TWICE: [Case; 4] = [
    Case {
        word: "go",
        instead: "echo ready; echo ready",
        beats: 0,
        counted: 0,
        gone: Answer::Gone,
    },
    Case {
        word: "ping",
        instead: "echo pong; echo pong",
        beats: 1,
        counted: 1,
        gone: Answer::Late,
    },
    Case {
        word: "tick",
        instead: "echo beat $2 $start; echo beat $2 $start",
        beats: 1,
        counted: 0,
        gone: Answer::Gone,
    },
    Case {
        word: "quit",
        instead: "echo gone; echo gone; exit 0",
        beats: 1,
        counted: 1,
        gone: Answer::Gone,
    },
];

#[test]
fn hears_who_answers_twice(rt: HostRuntime) -> Result<(), Fail> {
    for case in &TWICE {
        assert!(rt; is_met(&rt, case)?, "at {}", case.word);
    }
    Ok(())
}

/// The calls where there is no program.
const MISSING: [(u32, Call, Answer); 2] = [
    (1, Call::Fork(FIRST, 0, None), Answer::Again),
    (1, Call::SpawnMaster(2), Answer::NoImage),
];

#[test]
fn tells_a_missing_program(rt: HostRuntime) -> Result<(), Fail> {
    let carried = carried_over(&rt, "/none/such", &[], &MISSING)?;
    check_carried(&rt, carried, "/none/such");
    Ok(())
}

/// The calls of masters that end as they begin.
const GONE: [(u32, Call, Answer); 4] = [
    (1, Call::SpawnMaster(2), Answer::Spawned),
    (2, Call::Adopt, Answer::MasterGone),
    (1, Call::SpawnMaster(2), Answer::Spawned),
    (2, Call::Leave, Answer::MasterGone),
];

#[test]
fn a_master_that_ends_is_gone(rt: HostRuntime) -> Result<(), Fail> {
    // there is no script `adopt`
    for calls in [&GONE[..2], &GONE] {
        let carried = carried_over(&rt, "sh", b"end\n", calls)?;
        check_carried(&rt, carried, "sh");
    }
    Ok(())
}

/// The path of a text.
fn path_of(text: &[u8]) -> Result<FilePath, Fail> {
    Ok(FilePath::read(text)?)
}

/// A path of a file that no other run of the tests writes.
fn own_path(rt: &HostRuntime) -> Result<FilePath, Fail> {
    let name = format!(in rt.alloc(); "/tmp/prefork-{}.pid", process::id(rt.process()))?;
    path_of(name.as_bytes())
}

#[test]
fn writes_and_moves_files(rt: HostRuntime) -> Result<(), Fail> {
    let path = own_path(&rt)?;
    let nowhere = path_of(b"/none/such/a.pid")?;
    let calls = [
        (1, Call::WritePid(path), Answer::Fine),
        (1, Call::MovePid(path, nowhere), Answer::IoFault),
        (1, Call::RemovePid(path), Answer::Fine),
        (1, Call::RemovePid(path), Answer::IoFault),
        (1, Call::WritePid(nowhere), Answer::IoFault),
    ];
    let carried = carried_over(&rt, "none", &[], &calls)?;
    check_carried(&rt, carried, "none");
    Ok(())
}
