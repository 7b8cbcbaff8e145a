//! New masters on pipes, over children in memory.
use crate::piped::{Output, joined, lines_in, long_line, master_says, serve_new_master};
use call_text::{read_answer, read_call};
use child_family::{Heard, Role};
use child_programs::ServedMaster;
use child_recorder::{FamilyCall, Recorded};
use listener_set::Generation;
use std::alloc::{AllocError, Global};
use std::test::Fail;

/// What an old master hands over, line by line.
const HANDOVER: [&[u8]; 8] = [
    b"handover 1\n",
    b"old-pid 100\n",
    b"generation 2 2\n",
    b"listener 3 0.0.0.0:8080\n",
    b"want 0.0.0.0:8080\n",
    b"workers 2\n",
    b"pid-file /run/a.pid\n",
    b"end\n",
];

/// The calls of an upgrade, and some others of the new master.
const CALLS: &[u8] =
    b"m2 adopt\nm2 fork 2.2 0\nm2 fork 2.2 1\nm2 await-ready 2.2 0\nm2 await-ready 2.2 1\n\
    m2 write-pid /run/a.pid\nm2 census 2.2\nalive\nm2 open 0.0.0.0:9090\nm2 open 0.0.0.0:8080\n\
    m2 close 0.0.0.0:9090\nm2 usr1 2.2 0\nm2 quit 2.2 1\nm2 await-gone 2.2 1\nm2 kill 2.2 0\nm2 remove-pid /run/a.pid\n\
    m2 alive 3\nm3 adopt\nm2 leave\nm2 census 2.2\n";

const SAID: &[u8] =
    b"adopted\nforked\nforked\nready\nready\nok\ncounted 0-1\nalive\nopened 4\nin-use\nok\nok\nok\n\
    gone\nok\nok\ngone\nmaster-gone\nok\nmaster-gone\n";

/// What is asked where a handover was faulty, and what is answered then.
const ASKED: &[u8] = b"m2 adopt\nm2 fork 2.2 0\nalive\ntick 7\nm2 leave\nm3 adopt\nm3 alive 4\n";

const REFUSED: &[u8] =
    b"refused\nmaster-gone\nalive\ncounted none\nmaster-gone\nrefused\nmaster-gone\n";

fn handover(alloc: Global) -> Result<Vec<u8>, AllocError> {
    joined(alloc, &HANDOVER)
}

/// A handover, and what is told then.
fn handed(alloc: Global, told: &[&[u8]]) -> Result<Vec<u8>, AllocError> {
    let mut text = handover(alloc)?;
    for part in told {
        text.extend_from_slice(part)?;
    }
    Ok(text)
}

/// What a new master says that is told these parts behind its handover, and how it ends. The call of its family of that
/// number fails.
fn run(
    alloc: Global,
    told: &[&[u8]],
    fails: Option<usize>,
) -> Result<(Output, ServedMaster<Recorded>), AllocError> {
    let told = handed(alloc, told)?;
    let mut output = Output::new(alloc, None);
    let served = serve_new_master(alloc, told.as_slice(), fails, &mut output);
    Ok((output, served))
}

/// The family of a master that had one.
fn family_of(served: ServedMaster<Recorded>) -> Result<Recorded, Fail> {
    match served.family {
        Some(family) => Ok(family),
        None => Err(Fail::from("no family")),
    }
}

/// Whether a master ended so, and had a family.
fn has_ended(served: &ServedMaster<Recorded>, status: u8) -> bool {
    served.status == status && served.family.is_some()
}

/// Whether a new master that is told this refuses the handover, and asks nothing of its children.
fn refuses(alloc: Global, text: &[u8]) -> Result<bool, AllocError> {
    let told = joined(alloc, &[text, ASKED])?;
    Ok(master_says(alloc, told.as_slice(), REFUSED, 0) == Some(0))
}

#[test]
fn a_new_master_makes_the_calls_that_it_is_told(rt: HostRuntime) -> Result<(), Fail> {
    let alloc = rt.alloc();
    let told = handed(alloc, &[CALLS])?;
    assert!(rt; master_says(alloc, told.as_slice(), SAID, 0).is_some());
    Ok(())
}

/// What a worker is told as it starts, line by line.
const TOLD: [&[u8]; 3] = [b"worker 2.2 5 1\n", b"listener 0.0.0.0:8080\n", b"go\n"];

/// Whether a call started worker 5 of the new master, as its first child.
fn has_started_the_worker(call: &FamilyCall) -> bool {
    let role = Role::Worker {
        generation: Generation {
            image: 2,
            config: 2,
        },
        nr: 5,
        start: 1,
    };
    matches!(call, FamilyCall::Started(started, Ok(10)) if *started == role)
}

/// Whether a call wrote just this text to a file.
fn has_written(call: &FamilyCall, text: &[u8]) -> bool {
    matches!(call, FamilyCall::Wrote(_, written, true) if written.as_slice() == text)
}

#[test]
fn a_new_master_starts_workers_and_writes_its_number(rt: HostRuntime) -> Result<(), Fail> {
    let lines = b"m2 fork 2.2 5\nm2 write-pid /run/a.pid\n";
    let (_, served) = run(rt.alloc(), &[lines], None)?;
    let family = family_of(served)?;
    let calls = family.calls();
    assert_eq!(rt; calls.len(), 5);
    assert!(rt; has_started_the_worker(&calls[0]));
    assert!(rt; says_all(&calls[1..4], &TOLD));
    assert!(rt; has_written(&calls[4], b"200\n"));
    Ok(())
}

/// Whether a call said just this line to the first child.
fn has_said(call: &FamilyCall, line: &[u8]) -> bool {
    matches!(call, FamilyCall::Said(10, said, true) if said.as_slice() == line)
}

/// Whether a handover is refused that is cut after so many bytes.
fn refuses_cut(alloc: Global, text: &[u8], bytes: usize) -> Result<bool, Fail> {
    let cut = text.get(..bytes).ok_or("no cut")?;
    let line = joined(alloc, &[cut, b"\n"])?;

    // without the rest of its line it waits for it, and ends with the input
    let waits = master_says(alloc, cut, b"", 0) == Some(0);
    Ok(waits && refuses(alloc, line.as_slice())?)
}

#[test]
fn a_handover_that_is_cut_is_refused(rt: HostRuntime) -> Result<(), Fail> {
    let alloc = rt.alloc();
    let text = handover(alloc)?;
    for bytes in 0..text.len().saturating_sub(1) {
        assert!(rt; refuses_cut(alloc, text.as_slice(), bytes)?, "at {bytes}");
    }
    assert!(rt; !refuses(alloc, text.as_slice())?);
    Ok(())
}

/// The lines of the handover, with another text in place of one.
fn with_line(alloc: Global, place: usize, line: &[u8]) -> Result<Vec<u8>, AllocError> {
    let mut text = Vec::new(alloc);
    for (at, one) in HANDOVER.iter().enumerate() {
        text.extend_from_slice(if at == place { line } else { one })?;
    }
    Ok(text)
}

/// Whether a handover is refused that has another text in place of one line.
fn refuses_with_line(alloc: Global, place: usize, line: &[u8]) -> Result<bool, AllocError> {
    let text = with_line(alloc, place, line)?;
    refuses(alloc, text.as_slice())
}

/// The place of the line `pid-file`, which a handover can lack.
const PID_FILE: usize = 6;

#[test]
fn a_handover_that_lacks_a_line_is_refused(rt: HostRuntime) -> Result<(), Fail> {
    for place in 0..HANDOVER.len() {
        let is_refused = refuses_with_line(rt.alloc(), place, b"")?;
        assert_eq!(rt; is_refused, place != PID_FILE, "at {place}");
    }
    Ok(())
}

#[test]
fn a_handover_with_a_faulty_line_is_refused(rt: HostRuntime) -> Result<(), Fail> {
    let alloc = rt.alloc();
    let long = long_line(alloc, 5000)?;
    for faulty in [b"\n".as_slice(), b"what\n", b"end \n", long.as_slice()] {
        for place in 0..7 {
            assert!(rt; refuses_with_line(alloc, place, faulty)?, "at {place}");
        }
    }
    Ok(())
}

/// Whether what follows a faulty handover is none of it.
fn ends_with_its_line(alloc: Global, text: &[u8]) -> Result<bool, AllocError> {
    let told = joined(alloc, &[text, b"m2 adopt\nend\nalive\n"])?;
    let goes_on = master_says(alloc, told.as_slice(), b"refused\n", 1) == Some(0);
    Ok(goes_on && refuses(alloc, text)?)
}

#[test]
fn a_handover_ends_with_its_line_end(rt: HostRuntime) -> Result<(), Fail> {
    let told = handed(rt.alloc(), &[b"end\nalive\n"])?;
    assert!(rt; master_says(rt.alloc(), told.as_slice(), b"", 1) == Some(0));
    Ok(())
}

#[test]
fn a_faulty_handover_ends_with_its_line_end(rt: HostRuntime) -> Result<(), Fail> {
    let texts: [&[u8]; 3] = [b"end\n", b"handover 2\nend\n", b"handover 1\nend\n"];
    for (at, text) in texts.iter().enumerate() {
        assert!(rt; ends_with_its_line(rt.alloc(), text)?, "at {at}");
    }
    Ok(())
}

/// A new master's own upgrade.
const NEXT: [&[u8]; 14] = [
    b"m2 spawn-master 3\n",
    b"handover 1\n",
    b"old-pid 200\n",
    b"generation 3 3\n",
    b"listener 3 0.0.0.0:8080\n",
    b"want 0.0.0.0:8080\n",
    b"workers 1\n",
    b"end\n",
    b"m3 adopt\n",
    b"m3 fork 3.3 0\n",
    b"m2 alive 3\n",
    b"m2 leave\n",
    b"m3 census 3.3\n",
    b"m3 leave\n",
];

#[test]
fn calls_are_passed_to_the_next_master(rt: HostRuntime) -> Result<(), Fail> {
    let (output, served) = run(rt.alloc(), &NEXT, None)?;
    let said = b"spawned\nadopted\nforked\nalive\nok\ncounted 0\nok\n";
    assert_eq!(rt; served.status, 0);
    assert!(rt; output.text() == said.as_slice());
    assert!(rt; hands_over(family_of(served)?.calls()));
    Ok(())
}

/// What a new master says of these lines, whose own upgrade began before them.
fn says_after_an_upgrade(
    alloc: Global,
    lines: &[u8],
    fails: Option<usize>,
) -> Result<(Output, ServedMaster<Recorded>), AllocError> {
    let next = joined(alloc, &NEXT[..8])?;
    run(alloc, &[next.as_slice(), lines], fails)
}

#[test]
fn a_tick_counts_the_workers_that_beat(rt: HostRuntime) -> Result<(), Fail> {
    let alloc = rt.alloc();
    let told = handed(
        alloc,
        &[
            b"tick 5\nm2 fork 2.2 0\nm2 fork 2.2 1\nm2 await-ready 2.2 0\nm2 await-ready 2.2 1\ntick 7\n",
        ],
    )?;
    let said = b"counted none\nforked\nforked\nready\nready\ncounted 0-1\n";
    assert!(rt; master_says(alloc, told.as_slice(), said, 0).is_some());
    Ok(())
}

#[test]
fn a_tick_is_passed_on_once_the_master_has_left(rt: HostRuntime) -> Result<(), Fail> {
    let lines = b"tick 7\nm2 leave\ntick 8\nalive\n";
    let (output, served) = says_after_an_upgrade(rt.alloc(), lines, None)?;
    assert!(rt; output.text() == b"spawned\ncounted none\nok\ncounted 1\nalive\n".as_slice());
    let (said, heard) = talk_with(rt.alloc(), &family_of(served)?, 10)?;
    assert!(rt; said.ends_with(b"end\ntick 8\n"));
    assert!(rt; heard.as_slice() == b"counted 1\n".as_slice());
    Ok(())
}

/// Whether the last call stopped the first child.
fn stops_last(calls: &[FamilyCall]) -> bool {
    matches!(calls.last(), Some(FamilyCall::Stopped(10)))
}

#[test]
fn a_next_master_that_does_not_count_is_stopped(rt: HostRuntime) -> Result<(), Fail> {
    let lines = b"m2 leave\ntick 8\ntick 9\nm3 adopt\n";
    let said = b"spawned\nok\ncounted none\ncounted none\nmaster-gone\n";

    // the tick cannot be said, or its answer is not heard
    for fails in [8, 9] {
        let (output, served) = says_after_an_upgrade(rt.alloc(), lines, Some(fails))?;
        assert!(rt; output.text() == said.as_slice(), "at {fails}");
        assert!(rt; stops_last(family_of(served)?.calls()), "at {fails}");
    }
    Ok(())
}

/// Whether the next master was started, told each line of its handover, and then each of its calls, whose answer is
/// heard.
fn hands_over(calls: &[FamilyCall]) -> bool {
    let Some((first, rest)) = calls.split_first() else {
        return false;
    };
    let Some((texts, asked)) = rest.split_at_checked(7) else {
        return false;
    };
    let is_started = matches!(
        first,
        FamilyCall::Started(Role::Master { image: 3 }, Ok(10))
    );
    is_started && says_all(texts, &NEXT[1..8]) && asked.len() == 10
}

/// Whether calls say these lines.
fn says_all(calls: &[FamilyCall], lines: &[&[u8]]) -> bool {
    calls.len() == lines.len()
        && calls.iter().zip(lines.iter()).all(|(call, line)| line
            .strip_suffix(b"\n")
            .is_some_and(|said| has_said(call, said)))
}

/// A handover of the next master's own.
const HANDED: [&[u8]; 3] = [b"m3 spawn-master 4\n", b"handover 1\n", b"end\n"];

#[test]
fn a_handover_is_passed_on(rt: HostRuntime) -> Result<(), Fail> {
    let lines = b"m3 spawn-master 4\nhandover 1\nend\nm3 adopt\n";

    // the next master gives an answer that the call does not list, and is stopped
    let (output, served) = says_after_an_upgrade(rt.alloc(), lines, None)?;
    assert!(rt; output.text() == b"spawned\nmaster-gone\nmaster-gone\n".as_slice());
    let family = family_of(served)?;
    let calls = family.calls();
    assert_eq!(rt; calls.len(), 13);
    assert!(rt; says_all(&calls[8..11], &HANDED));
    assert!(rt; matches!(&calls[11], FamilyCall::HeardLine(10, Heard::Line, _)));
    assert!(rt; stops_last(calls));
    Ok(())
}

/// So many lines of the new master's own upgrade.
fn first_lines(alloc: Global, count: usize) -> Result<Vec<u8>, AllocError> {
    let mut text = Vec::new(alloc);
    for line in NEXT.iter().take(count) {
        text.extend_from_slice(line)?;
    }
    Ok(text)
}

/// Lines that are not of a handover.
const BETWEEN: [&[u8]; 4] = [
    b"alive\n",
    b"m2 adopt\n",
    b"tick 7\n",
    b"m2 spawn-master 3\n",
];

#[test]
fn nothing_comes_between_a_start_and_its_handover(rt: HostRuntime) -> Result<(), Fail> {
    for count in 1..8 {
        for line in &BETWEEN {
            assert!(rt; is_the_end(rt.alloc(), count, line)?, "at {count}");
        }
    }
    Ok(())
}

/// Whether a new master ends at a line that comes in the place of the rest of a handover.
fn is_the_end(alloc: Global, count: usize, line: &[u8]) -> Result<bool, Fail> {
    let begun = first_lines(alloc, count)?;
    let told = handed(alloc, &[begun.as_slice(), line, b"end\nalive\n"])?;
    Ok(master_says(alloc, told.as_slice(), b"", 1) == Some(0))
}

/// A handover, and then the calls of two upgrades.
fn two_upgrades(alloc: Global) -> Result<Vec<u8>, AllocError> {
    let next = joined(alloc, &NEXT)?;
    handed(alloc, &[CALLS, next.as_slice()])
}

/// What a new master says that is told a text.
fn said_of(alloc: Global, told: &[u8]) -> Output {
    let mut output = Output::new(alloc, None);
    let _ = serve_new_master(alloc, told, None, &mut output);
    output
}

/// Whether a new master that is told a part of a text ends with it, and said a part of what it says of the whole.
fn says_a_part(alloc: Global, told: &[u8], said: &[u8]) -> bool {
    let mut output = Output::new(alloc, None);
    let served = serve_new_master(alloc, told, None, &mut output);
    has_ended(&served, 0)
        && said.starts_with(output.text())
        && output.has_said(lines_in(output.text()))
}

#[test]
fn a_new_master_ends_with_its_input(rt: HostRuntime) -> Result<(), Fail> {
    let alloc = rt.alloc();
    let whole = two_upgrades(alloc)?;
    let output = said_of(alloc, whole.as_slice());
    for bytes in 0..whole.len() {
        let told = whole.as_slice().get(..bytes).ok_or("no part")?;
        assert!(rt; says_a_part(alloc, told, output.text()), "at {bytes}");
    }
    Ok(())
}

/// Lines that a new master can't be told behind its handover.
const OTHERS: [&[u8]; 33] = [
    b"",
    b" ",
    b"alive ",
    b" alive",
    b"alive 1",
    b"Alive",
    b"tick",
    b"tick ",
    b"tick 07",
    b"tick 7 ",
    b"ticks 7",
    b"tick 18446744073709551616",
    b"m2",
    b"m2 ",
    b"m adopt",
    b"2 adopt",
    b"M2 adopt",
    b"m02 adopt",
    b"m2 adopt ",
    b"m2  adopt",
    b"m4294967296 adopt",
    b"m2 fork 2.2",
    b"m2 fork 2.2 1024",
    b"m2 census",
    b"m2 spawn-master",
    b"m2 spawn-master 4294967296",
    b"m2 open 0.0.0.0",
    b"go",
    b"ping",
    b"quit",
    b"end",
    b"handover 1",
    b"adopted",
];

/// Whether a new master fails at a line, once it was told to adopt.
fn fails_at(alloc: Global, line: &[u8]) -> Result<bool, AllocError> {
    let told = handed(alloc, &[b"m2 adopt\n", line, b"\nalive\n"])?;
    Ok(master_says(alloc, told.as_slice(), b"adopted\n", 1) == Some(0))
}

#[test]
fn a_new_master_fails_at_any_other_line(rt: HostRuntime) -> Result<(), Fail> {
    for (at, line) in OTHERS.iter().enumerate() {
        assert!(rt; fails_at(rt.alloc(), line)?, "at {at}");
    }
    Ok(())
}

#[test]
fn a_new_master_fails_at_a_line_that_is_too_long(rt: HostRuntime) -> Result<(), Fail> {
    let alloc = rt.alloc();
    let long = long_line(alloc, 5000)?;
    let told = handed(alloc, &[b"alive\n", long.as_slice(), b"alive\n"])?;
    assert!(rt; master_says(alloc, told.as_slice(), b"alive\n", 1) == Some(0));
    Ok(())
}

/// Whether a new master whose write of that number fails ends with it.
fn fails_at_write(alloc: Global, told: &[u8], fails: usize) -> bool {
    let mut output = Output::new(alloc, Some(fails));
    let served = serve_new_master(alloc, told, None, &mut output);
    has_ended(&served, 1) && SAID.starts_with(output.text()) && output.has_said(fails)
}

#[test]
fn a_new_master_fails_where_it_cannot_answer(rt: HostRuntime) -> Result<(), Fail> {
    let told = handed(rt.alloc(), &[CALLS])?;
    for fails in 0..20 {
        assert!(rt;
            fails_at_write(rt.alloc(), told.as_slice(), fails),
            "at {fails}"
        );
    }
    Ok(())
}

/// Whether a call lists this answer, or `alive` has its own.
fn is_answer(line: &[u8], answer: &[u8]) -> bool {
    match read_call(line) {
        Some((_, call)) => read_answer(&call, answer).is_some(),
        None => line == answer,
    }
}

/// Whether each call has an answer that it lists, and `alive` its own.
fn are_answers(calls: &[u8], answers: &[u8]) -> bool {
    let mut said = answers.split(|byte| *byte == b'\n');
    for line in calls.split(|byte| *byte == b'\n') {
        let Some(answer) = said.next() else {
            return false;
        };
        if !is_answer(line, answer) {
            return false;
        }
    }
    said.next().is_none()
}

#[test]
fn a_new_master_answers_whichever_call_of_its_family_fails(rt: HostRuntime) -> Result<(), Fail> {
    for fails in 0..40 {
        let (output, served) = run(rt.alloc(), &[CALLS], Some(fails))?;
        assert_eq!(rt; served.status, 0, "at {fails}");
        assert!(rt; are_answers(CALLS, output.text()), "at {fails}");
    }
    Ok(())
}

/// Puts a line behind a text.
fn add_line(text: &mut Vec<u8>, line: &[u8]) -> Result<(), AllocError> {
    text.extend_from_slice(line)?;
    text.extend_from_slice(b"\n")
}

/// What was said to a child, line by line, and what was heard of it.
fn talk_with(
    alloc: Global,
    family: &Recorded,
    child: u32,
) -> Result<(Vec<u8>, Vec<u8>), AllocError> {
    let mut said = Vec::new(alloc);
    let mut heard = Vec::new(alloc);
    for call in family.calls() {
        match call {
            FamilyCall::Said(id, line, _) if *id == child => {
                add_line(&mut said, line.as_slice())?;
            }
            FamilyCall::HeardLine(id, _, line) if *id == child => {
                add_line(&mut heard, line.as_slice())?;
            }
            _ => {}
        }
    }
    Ok((said, heard))
}

/// Whether a worker that is told what a child was told says what was heard of that child.
fn obeys_as(alloc: Global, family: &Recorded, child: u32) -> Result<bool, AllocError> {
    let (said, heard) = talk_with(alloc, family, child)?;
    let mut answers = Output::new(alloc, None);
    let status = child_programs::serve_worker(said.as_slice(), &mut answers);
    Ok(status == 0 && answers.text() == heard.as_slice())
}

#[test]
fn a_worker_on_pipes_obeys_a_new_master(rt: HostRuntime) -> Result<(), Fail> {
    let (_, served) = run(rt.alloc(), &[CALLS], None)?;
    let family = family_of(served)?;
    for child in 10..12 {
        assert!(rt; obeys_as(rt.alloc(), &family, child)?, "at {child}");
    }
    Ok(())
}
