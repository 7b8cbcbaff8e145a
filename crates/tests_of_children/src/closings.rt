//! Edges over processes of the system that close their input while they are told.
use crate::lives::{Case, carried_on, carried_over, check_carried, is_met};
use crate::setup::FIRST;
use std::alloc::{AllocError, Global};
use std::test::Fail;
use vocabulary::{Answer, Call};

/// What cannot be said is lost, and what is heard decides.
const CLOSINGS: [Case; 4] = [
    Case {
        word: "go",
        instead: "echo ready; exec <&-; exec sleep 100 >&-",
        beats: 0,
        counted: 0,
        gone: Answer::Gone,
    },
    Case {
        word: "go",
        instead: "exec <&-; echo ready; echo beat 7 1; echo pong; echo gone; exit 0",
        beats: 1,
        counted: 1,
        gone: Answer::Gone,
    },
    Case {
        word: "tick",
        instead: "exec <&-; exec sleep 100 >&-",
        beats: 0,
        counted: 0,
        gone: Answer::Gone,
    },
    Case {
        word: "ping",
        instead: "echo pong; exec <&-; echo late; exit 0",
        beats: 1,
        counted: 1,
        gone: Answer::Late,
    },
];

#[test]
fn what_cannot_be_said_is_lost(rt: HostRuntime) -> Result<(), Fail> {
    for case in &CLOSINGS {
        assert!(rt; is_met(&rt, case)?, "at {}", case.word);
    }
    Ok(())
}

/// The calls of a worker that ends with the line that it hears.
const ENDS: [(u32, Call, Answer); 7] = [
    (1, Call::Fork(FIRST, 0, None), Answer::Forked),
    (1, Call::AwaitReady(FIRST, 0), Answer::Gone),
    (1, Call::Usr1(FIRST, 0), Answer::Fine),
    (1, Call::AwaitReady(FIRST, 0), Answer::Gone),
    (1, Call::Fork(FIRST, 0, None), Answer::Forked),
    (1, Call::Quit(FIRST, 0), Answer::Fine),
    (1, Call::AwaitGone(FIRST, 0), Answer::Gone),
];

#[test]
fn a_worker_that_ends_before_it_is_told_was_forked(rt: HostRuntime) -> Result<(), Fail> {
    for word in ["worker", "listener", "go"] {
        let carried = carried_on(&rt, word, "exit 0", &ENDS)?;
        check_carried(&rt, carried, word);
    }
    Ok(())
}

/// More than a pipe holds.
fn long_handover(alloc: Global) -> Result<Vec<u8>, AllocError> {
    let mut text: Vec<u8> = Vec::new(alloc);
    for _ in 0..20000 {
        text.extend_from_slice(b"handover\n")?;
    }
    Ok(text)
}

/// The calls of masters that are gone at once.
const UNREAD: [(u32, Call, Answer); 6] = [
    (1, Call::SpawnMaster(2), Answer::Spawned),
    (2, Call::Adopt, Answer::MasterGone),
    (1, Call::Alive(2), Answer::Gone),
    (1, Call::SpawnMaster(2), Answer::Spawned),
    (2, Call::SpawnMaster(3), Answer::MasterGone),
    (1, Call::Alive(2), Answer::Gone),
];

#[test]
fn a_master_may_leave_its_handover_unread(rt: HostRuntime) -> Result<(), Fail> {
    let text = long_handover(rt.alloc())?;
    for calls in [&UNREAD[..3], &UNREAD] {
        let carried = carried_over(&rt, "true", text.as_slice(), calls)?;
        check_carried(&rt, carried, "true");
    }
    Ok(())
}
