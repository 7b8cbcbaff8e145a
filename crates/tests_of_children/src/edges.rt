//! Edges over children in memory.
use crate::setup::{Dialogue, FIRST, Telling, ask, both_beat, counts, edge_of, first_wrong, start};
use child_edge::Edge;
use child_family::Heard;
use child_recorder::{FamilyCall, Recorded};
use listener_set::{Address, DescriptorSet};
use plan_walk::Calls;
use std::alloc::{AllocError, Global};
use std::process::Abort;
use std::test::Fail;
use vocabulary::{Answer, Call};

/// Children of which none fails.
fn children(alloc: Global) -> Recorded {
    Recorded::new(alloc, None)
}

/// The address of a text. A proof about a text that stands where it is read takes longer.
fn address_of(text: &[u8]) -> Result<Address, Fail> {
    Ok(Address::read(text)?)
}

/// An address that the edge does not listen on at first.
fn other_address() -> Result<Address, Fail> {
    address_of(b"0.0.0.0:9090")
}

/// Stops the test where another number of calls was made on the children.
fn check_calls<F: Telling>(rt: &impl Abort, edge: &Edge<F>, count: usize) {
    assert_eq!(rt; edge.family().calls_told().len(), count);
}

/// Stops the test at the first call that is answered in another way.
fn check_answers<C: Calls>(rt: &impl Abort, edge: &mut C, calls: Dialogue) {
    assert_eq!(rt; first_wrong(edge, calls), None);
}

/// Whether the call at a place said just this line to the first child.
fn is_said<F: Telling>(edge: &Edge<F>, place: usize, line: &[u8]) -> bool {
    match edge.family().calls_told().get(place) {
        Some(FamilyCall::Said(10, text, true)) => text.as_slice() == line,
        _ => false,
    }
}

/// Stops the test where the calls from the second on did not say these lines to the first child.
fn check_said<F: Telling>(rt: &impl Abort, edge: &Edge<F>, lines: &[&[u8]]) {
    for (at, line) in lines.iter().enumerate() {
        assert!(rt; is_said(edge, at.saturating_add(1), line), "at {at}");
    }
}

/// Whether the call at a place heard just this line of the first child.
fn is_heard<F: Telling>(edge: &Edge<F>, place: usize, line: &[u8]) -> bool {
    match edge.family().calls_told().get(place) {
        Some(FamilyCall::HeardLine(10, Heard::Line, text)) => text.as_slice() == line,
        _ => false,
    }
}

/// Whether the call at a place stopped the first child.
fn is_stopped<F: Telling>(edge: &Edge<F>, place: usize) -> bool {
    matches!(
        edge.family().calls_told().get(place),
        Some(FamilyCall::Stopped(10))
    )
}

/// Starts two workers; both are told to go before the first is heard.
fn start_two<C: Calls>(edge: &mut C) -> bool {
    for nr in 0..2 {
        if ask(edge, 1, Call::Fork(FIRST, nr, None)) != Some(Answer::Forked) {
            return false;
        }
    }
    (0..2).all(|nr| is_ready(edge, nr))
}

fn is_ready<C: Calls>(edge: &mut C, nr: u32) -> bool {
    ask(edge, 1, Call::AwaitReady(FIRST, nr)) == Some(Answer::IsReady)
}

/// Two workers start, beat at two ticks, and are counted.
fn two_beat<F: Telling>(rt: &impl Abort, alloc: Global, family: F) -> Result<(), AllocError> {
    let mut edge = edge_of(alloc, family)?;
    assert!(rt; start_two(&mut edge));

    // worker 0 gives its beat only where worker 1 was told the tick
    for now in [7, 8] {
        assert!(rt; both_beat(&mut edge, now), "at {now}");
    }
    assert!(rt; counts(&mut edge, 2));
    Ok(())
}

#[test]
fn tells_all_before_it_hears(rt: HostRuntime) -> Result<(), Fail> {
    Ok(two_beat(&rt, rt.alloc(), children(rt.alloc()))?)
}

/// What a worker is told as it starts, line by line.
const TOLD: [&[u8]; 3] = [b"worker 1.1 5 1", b"listener 0.0.0.0:8080", b"go"];

/// Worker 5 starts.
fn one_starts<F: Telling>(rt: &impl Abort, alloc: Global, family: F) -> Result<(), AllocError> {
    let mut edge = edge_of(alloc, family)?;
    assert!(rt; start(&mut edge, 5) == Some(Answer::IsReady));
    check_calls(rt, &edge, 5);
    check_said(rt, &edge, &TOLD);
    assert!(rt; is_heard(&edge, 4, b"ready"));
    Ok(())
}

#[test]
fn tells_a_worker_what_it_is(rt: HostRuntime) -> Result<(), Fail> {
    Ok(one_starts(&rt, rt.alloc(), children(rt.alloc()))?)
}

/// The edge listens on another address too, and closes the first while a worker runs.
fn two_addresses_open<F: Telling>(
    rt: &impl Abort,
    alloc: Global,
    family: F,
    other: Address,
) -> Result<(), AllocError> {
    let mut edge = edge_of(alloc, family)?;
    let first = Address::plain();
    let calls = [
        (1, Call::OpenAt(first), Answer::InUse),
        (1, Call::OpenAt(other), Answer::Opened(4)),
        (1, Call::Fork(FIRST, 0, None), Answer::Forked),
        (1, Call::AwaitReady(FIRST, 0), Answer::IsReady),
        (1, Call::CloseAt(first), Answer::Fine),
        (1, Call::OpenAt(first), Answer::Opened(3)),
    ];
    check_answers(rt, &mut edge, &calls);
    check_calls(rt, &edge, 7);
    assert!(rt; is_said(&edge, 6, b"close 0.0.0.0:8080"));
    Ok(())
}

#[test]
fn opens_and_closes(rt: HostRuntime) -> Result<(), Fail> {
    Ok(two_addresses_open(&rt, rt.alloc(), children(rt.alloc()), other_address()?)?)
}

/// Whether just these lines were said, in order, each to the child of its number.
fn are_said(calls: &[FamilyCall], lines: &[(u32, &[u8])]) -> bool {
    let mut rest = lines.iter();
    for call in calls {
        if let FamilyCall::Said(id, text, true) = call {
            match rest.next() {
                Some((child, line)) if child == id && text.as_slice() == *line => {}
                _ => return false,
            }
        }
    }
    rest.next().is_none()
}

/// What two workers are told, each by its number.
const SAID: [(u32, &[u8]); 11] = [
    (10, b"worker 1.1 0 1"),
    (10, b"listener 0.0.0.0:9090"),
    (10, b"go"),
    (11, b"worker 1.1 1 2"),
    (11, b"listener 0.0.0.0:8080"),
    (11, b"listener 0.0.0.0:9090"),
    (11, b"go"),
    (10, b"close 0.0.0.0:8080"),
    (11, b"close 0.0.0.0:8080"),
    (10, b"close 0.0.0.0:9090"),
    (11, b"close 0.0.0.0:9090"),
];

/// The second address alone.
fn second_alone() -> DescriptorSet {
    let mut second = DescriptorSet::none();
    second.add(4);
    second
}

/// Of two workers one is told of both addresses, and one of the other address alone; then both are closed.
fn two_addresses_are_told<F: Telling>(
    rt: &impl Abort,
    alloc: Global,
    family: F,
    other: Address,
) -> Result<(), AllocError> {
    let mut edge = edge_of(alloc, family)?;
    let calls = [
        (1, Call::OpenAt(other), Answer::Opened(4)),
        (
            1,
            Call::Fork(FIRST, 0, Some(second_alone())),
            Answer::Forked,
        ),
        (1, Call::Fork(FIRST, 1, None), Answer::Forked),
        (1, Call::CloseAt(Address::plain()), Answer::Fine),
        (1, Call::CloseAt(other), Answer::Fine),
    ];
    check_answers(rt, &mut edge, &calls);
    assert!(rt; are_said(edge.family().calls_told(), &SAID));
    Ok(())
}

#[test]
fn tells_a_worker_only_of_its_descriptors(rt: HostRuntime) -> Result<(), Fail> {
    Ok(two_addresses_are_told(&rt, rt.alloc(), children(rt.alloc()), other_address()?)?)
}

/// What is answered of a child that is not there.
const ABSENT: [(Call, Answer); 8] = [
    (Call::AwaitReady(FIRST, 0), Answer::Gone),
    (Call::AwaitGone(FIRST, 0), Answer::Gone),
    (Call::Alive(2), Answer::Gone),
    (Call::Quit(FIRST, 0), Answer::Fine),
    (Call::Kill(FIRST, 0), Answer::Fine),
    (Call::Usr1(FIRST, 0), Answer::Fine),
    (Call::TermMaster(2), Answer::Fine),
    (Call::Adopt, Answer::Refused),
];

/// Calls about children that are not there.
fn nobody_is_asked<F: Telling>(
    rt: &impl Abort,
    alloc: Global,
    family: F,
) -> Result<(), AllocError> {
    let mut edge = edge_of(alloc, family)?;
    for (at, (call, answer)) in ABSENT.iter().enumerate() {
        assert!(rt; ask(&mut edge, 1, *call) == Some(*answer), "at {at}");
        assert!(rt;
            ask(&mut edge, 2, *call) == Some(Answer::MasterGone),
            "at {at}"
        );
    }
    check_calls(rt, &edge, 0);
    assert!(rt; edge.room() == 84);
    Ok(())
}

#[test]
fn asks_nobody_where_there_is_no_child(rt: HostRuntime) -> Result<(), Fail> {
    Ok(nobody_is_asked(&rt, rt.alloc(), children(rt.alloc()))?)
}

/// The calls of an upgrade.
const PASSED: [(u32, Call, Answer); 9] = [
    (1, Call::SpawnMaster(2), Answer::Spawned),
    (1, Call::SpawnMaster(3), Answer::Again),
    (2, Call::Adopt, Answer::Adopted),
    (1, Call::Alive(2), Answer::IsAlive),
    // it has left, and passes lines
    (1, Call::Leave, Answer::Fine),
    (1, Call::Census(FIRST), Answer::MasterGone),
    (2, Call::Adopt, Answer::Adopted),
    // an answer that the call does not list
    (2, Call::Alive(3), Answer::MasterGone),
    (2, Call::Adopt, Answer::MasterGone),
];

/// What the new master is told first, line by line.
const HANDED: [&[u8]; 3] = [b"handover 1", b"end", b"m2 adopt"];

/// The calls of an upgrade.
fn a_master_is_asked<F: Telling>(
    rt: &impl Abort,
    alloc: Global,
    family: F,
) -> Result<(), AllocError> {
    let mut edge = edge_of(alloc, family)?;
    edge.reserve(20, b"handover 1\nend\n")?;
    check_answers(rt, &mut edge, &PASSED);
    check_calls(rt, &edge, 12);
    check_said(rt, &edge, &HANDED);
    assert!(rt; is_stopped(&edge, 11));
    Ok(())
}

#[test]
fn passes_calls_to_its_child_master(rt: HostRuntime) -> Result<(), Fail> {
    Ok(a_master_is_asked(&rt, rt.alloc(), children(rt.alloc()))?)
}

/// All calls of two workers' lives.
const LIFE: [Call; 12] = [
    Call::Fork(FIRST, 0, None),
    Call::Fork(FIRST, 1, None),
    Call::AwaitReady(FIRST, 0),
    Call::AwaitReady(FIRST, 1),
    Call::Census(FIRST),
    Call::Usr1(FIRST, 0),
    Call::Quit(FIRST, 1),
    Call::Quit(FIRST, 0),
    Call::AwaitGone(FIRST, 1),
    Call::AwaitGone(FIRST, 0),
    Call::Kill(FIRST, 0),
    Call::Leave,
];

/// Whether each call of two workers' lives is answered, and none as if the master had left before it does.
fn lives_on<C: Calls>(edge: &mut C) -> bool {
    for call in LIFE {
        match ask(edge, 1, call) {
            None | Some(Answer::MasterGone) => return false,
            Some(_) => {}
        }
    }
    true
}

/// Whether two workers live on so, and then their master has left.
fn leaves_at_last<F: Telling>(alloc: Global, family: F) -> Result<bool, AllocError> {
    let mut edge = edge_of(alloc, family)?;
    Ok(lives_on(&mut edge) && ask(&mut edge, 1, Call::Leave) == Some(Answer::MasterGone))
}

#[test]
fn answers_whichever_call_fails(rt: HostRuntime) -> Result<(), Fail> {
    let alloc = rt.alloc();
    for fails in 0..24 {
        let family = Recorded::new(alloc, Some(fails));
        assert!(rt; leaves_at_last(alloc, family)?, "at {fails}");
    }
    Ok(())
}
