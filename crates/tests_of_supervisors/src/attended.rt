//! Attended upgrades, carried out on children in memory: what answers their questions, and which lines wait.
use crate::generations::Generations;
use crate::setup::{Always, FIRST_QUITS, are_lines, could_be, joined, ticked, times};
use log::sink::{Discard, Memory};
use log::{LevelFilter, Log, Logged};
use master_on_children::{Operator, SupervisorFault, SupervisorStart, supervise_on};
use std::alloc::{AllocError, Global};
use std::io::{Error as IoError, ErrorKind, Read, Result as IoResult};
use std::test::Fail;
use vocabulary::Settings;

/// What a supervisor of one worker writes, and what comes of it.
fn run<I: Read + Drop, L: Log + Drop>(
    alloc: Global,
    input: I,
    log: L,
) -> (Vec<u8>, Result<u8, SupervisorFault>) {
    let settings = Settings::plain();
    let start = SupervisorStart { settings, pid: 7 };
    let operator = Operator { input, log };
    let family = Generations::new(alloc);
    let mut next = Always { settings };
    let mut output = Vec::new(alloc);
    let ended = supervise_on(alloc, family, &start, &mut next, operator, &mut output);
    (output, ended.status)
}

/// The word, and a line that answers to go on.
const ASK: &[u8] = b"USR2 attended\n";

const GO: &[u8] = b"WINCH\n";

/// The upgrade up to its first question.
const TO_THE_FIRST: &[u8] = b"word USR2 attended\n\
    1 m1 spawn-master 2 : spawned\n\
    2 m2 adopt : adopted\n\
    3 m1 census 1.1 : counted 0\n\
    4 m2 fork 2.2 0 : forked\n\
    5 m2 await-ready 2.2 0 : ready\n\
    6 m2 census 2.2 : counted 0\n";

/// From the first question on where it goes back there.
const BACK_AT_THE_FIRST: &[u8] = b"7 m1 ask 1 : back\n\
    8 m1 term-master 2 : ok\n\
    9 m1 census 1.1 : counted 0\n\
    rolled-back cause 7 pid no-file\n";

/// From the first question to the second where it goes on.
const TO_THE_SECOND: &[u8] = b"7 m1 ask 1 : go\n\
    8 m1 quit 1.1 0 : ok\n\
    9 m1 await-gone 1.1 0 : gone\n";

/// From the second question on where it goes back there.
const BACK_AT_THE_SECOND: &[u8] = b"10 m1 ask 2 : back\n\
    11 m1 fork 1.1 0 : forked\n\
    12 m1 await-ready 1.1 0 : ready\n\
    13 m1 term-master 2 : ok\n\
    14 m1 census 1.1 : counted 0\n\
    rolled-back cause 10 pid no-file\n";

/// From the second question on where it goes on.
const GONE_OVER: &[u8] = b"10 m1 ask 2 : go\n\
    11 m1 alive 2 : alive\n\
    12 m1 leave : ok\n\
    13 m2 census 2.2 : counted 0\n\
    done cause none pid no-file\n";

/// How the second master quits.
const SECOND_QUITS: &[u8] = b"word QUIT\n\
    1 m2 quit 2.2 0 : ok\n\
    2 m2 await-gone 2.2 0 : gone\n\
    3 m2 leave : ok\n\
    done cause none pid no-file\n";

/// Whether this input leads to these blocks behind the first tick, and to this status; a modelled kernel could have given
/// them.
fn leads_to(alloc: Global, input: &[u8], parts: &[&[u8]], status: u8) -> Result<bool, Fail> {
    let text = ticked(alloc, parts)?;
    let (written, ended) = run(alloc, input, Discard);
    let is_so = written.as_slice() == text.as_slice() && ended == Ok(status);
    Ok(is_so && could_be(alloc, written.as_slice())?)
}

#[test]
fn goes_back_at_the_first_question(rt: HostRuntime) -> Result<(), Fail> {
    let back = [TO_THE_FIRST, BACK_AT_THE_FIRST, FIRST_QUITS];
    assert!(rt; leads_to(rt.alloc(), b"USR2 attended\nHUP\nQUIT\n", &back, 3)?);
    // the end of the input is a way back, and then it quits
    assert!(rt; leads_to(rt.alloc(), ASK, &back, 3)?);
    Ok(())
}

/// Whether it goes back at the second question once it has read this.
fn goes_back_late(alloc: Global, input: &[u8]) -> Result<bool, Fail> {
    let late = [TO_THE_FIRST, TO_THE_SECOND, BACK_AT_THE_SECOND, FIRST_QUITS];
    leads_to(alloc, input, &late, 3)
}

#[test]
fn goes_back_at_the_second_question(rt: HostRuntime) -> Result<(), Fail> {
    for input in [
        b"USR2 attended\nWINCH\n".as_slice(),
        b"USR2 attended\nWINCH\nHUP".as_slice(),
        b"USR2 attended\nQUIT\n".as_slice(),
        b"USR2 attended\nQUIT\nHUP".as_slice(),
    ] {
        assert!(rt; goes_back_late(rt.alloc(), input)?);
    }
    Ok(())
}

/// Whether it goes over to the new master once it has read this.
fn goes_over(alloc: Global, input: &[u8]) -> Result<bool, Fail> {
    let over = [TO_THE_FIRST, TO_THE_SECOND, GONE_OVER, SECOND_QUITS];
    leads_to(alloc, input, &over, 0)
}

#[test]
fn goes_over_by_two_answers(rt: HostRuntime) -> Result<(), Fail> {
    for input in [
        b"USR2 attended\nWINCH\nWINCH\n".as_slice(),
        b"USR2 attended\nWINCH\nQUIT\n".as_slice(),
        b"USR2 attended\nQUIT\nWINCH\n".as_slice(),
        b"USR2 attended\nQUIT\nQUIT\n".as_slice(),
    ] {
        assert!(rt; goes_over(rt.alloc(), input)?);
    }
    Ok(())
}

/// Lines that answer nothing: a beat, one that is no word, one that is too long, and a wrong number.
fn other_lines(alloc: Global) -> Result<Vec<u8>, AllocError> {
    let long = times(alloc, 5_000, b"a")?;
    let front = b"beat 0 5\nhello\n".as_slice();
    joined(alloc, &[front, long.as_slice(), b"\ntick 01\n".as_slice()])
}

/// What they come to.
const OTHER_BLOCKS: &[u8] = b"word beat 0 5\nnothing\nunread W1\nunread W1\nunread W2\n";

/// The word, those lines, and this.
fn asked_meanwhile(alloc: Global, rest: &[u8]) -> Result<Vec<u8>, AllocError> {
    let others = other_lines(alloc)?;
    joined(alloc, &[ASK, others.as_slice(), rest])
}

#[test]
fn other_lines_come_in_order_where_it_goes_over(rt: HostRuntime) -> Result<(), Fail> {
    let input = asked_meanwhile(rt.alloc(), b"WINCH\nwhat\nWINCH\nbeat 0 6\n")?;
    let over = [
        TO_THE_FIRST,
        TO_THE_SECOND,
        GONE_OVER,
        OTHER_BLOCKS,
        b"unread W1\nword beat 0 6\nnothing\n".as_slice(),
        SECOND_QUITS,
    ];
    assert!(rt; leads_to(rt.alloc(), &input, &over, 1)?);
    Ok(())
}

#[test]
fn other_lines_come_in_order_where_it_goes_back(rt: HostRuntime) -> Result<(), Fail> {
    let input = asked_meanwhile(rt.alloc(), b"HUP\nbeat 0 6\n")?;
    let back = [
        TO_THE_FIRST,
        BACK_AT_THE_FIRST,
        OTHER_BLOCKS,
        b"word beat 0 6\nnothing\n".as_slice(),
        FIRST_QUITS,
    ];
    assert!(rt; leads_to(rt.alloc(), &input, &back, 1)?);
    Ok(())
}

/// What `WINCH` comes to where it is no answer.
const TAKEN_AWAY: &[u8] = b"word WINCH\n\
    1 m1 quit 1.1 0 : ok\n\
    2 m1 census 1.1 : counted none\n\
    done cause none pid no-file\n";

/// How a master without workers quits.
const QUITS_WITHOUT_WORKERS: &[u8] = b"word QUIT\n1 m1 leave : ok\ndone cause none pid no-file\n";

/// The word, a line so many times, and this.
fn asked_behind(
    alloc: Global,
    count: u32,
    line: &[u8],
    rest: &[u8],
) -> Result<Vec<u8>, AllocError> {
    let lines = times(alloc, count, line)?;
    joined(alloc, &[ASK, lines.as_slice(), rest])
}

#[test]
fn goes_on_behind_63_lines_that_wait(rt: HostRuntime) -> Result<(), Fail> {
    let input = asked_behind(rt.alloc(), 63, b"what\n", b"WINCH\nWINCH\n")?;
    let blocks = times(rt.alloc(), 63, b"unread W1\n")?;
    let blocks = blocks.as_slice();
    let over = [TO_THE_FIRST, TO_THE_SECOND, GONE_OVER, blocks, SECOND_QUITS];
    assert!(rt; leads_to(rt.alloc(), &input, &over, 1)?);
    Ok(())
}

/// 63 lines of two kinds by turns: those that wait come back in the order in which they came.
#[test]
fn lines_that_wait_keep_their_order(rt: HostRuntime) -> Result<(), Fail> {
    let input = asked_behind(rt.alloc(), 31, b"what\nbeat 7 1\n", b"what\nWINCH\nWINCH\n")?;
    let blocks = times(rt.alloc(), 31, b"unread W1\nword beat 7 1\nrefused T3\n")?;
    let over = [
        TO_THE_FIRST,
        TO_THE_SECOND,
        GONE_OVER,
        blocks.as_slice(),
        b"unread W1\n".as_slice(),
        SECOND_QUITS,
    ];
    assert!(rt; leads_to(rt.alloc(), &input, &over, 1)?);
    Ok(())
}

/// What comes of `TTIN`, and then of the end of the input.
const ADDED: &[u8] = b"word TTIN\n\
    1 m1 fork 1.1 1 : forked\n\
    2 m1 await-ready 1.1 1 : ready\n\
    3 m1 census 1.1 : counted 0-1\n\
    done cause none pid no-file\n";

const TWO_QUIT: &[u8] = b"word QUIT\n\
    1 m1 quit 1.1 1 : ok\n\
    2 m1 quit 1.1 0 : ok\n\
    3 m1 await-gone 1.1 1 : gone\n\
    4 m1 await-gone 1.1 0 : gone\n\
    5 m1 leave : ok\n\
    done cause none pid no-file\n";

#[test]
fn a_word_with_a_plan_waits(rt: HostRuntime) -> Result<(), Fail> {
    let back = [TO_THE_FIRST, BACK_AT_THE_FIRST, ADDED, TWO_QUIT];
    assert!(rt; leads_to(rt.alloc(), b"USR2 attended\nTTIN\nHUP\n", &back, 3)?);
    Ok(())
}

#[test]
fn a_word_with_a_plan_waits_behind_an_answer(rt: HostRuntime) -> Result<(), Fail> {
    let late = [
        TO_THE_FIRST,
        TO_THE_SECOND,
        BACK_AT_THE_SECOND,
        ADDED,
        TWO_QUIT,
    ];
    assert!(rt; leads_to(rt.alloc(), b"USR2 attended\nWINCH\nTTIN\nHUP\n", &late, 3)?);
    Ok(())
}

/// What comes behind the 64th line is read when the lines that wait are done.
#[test]
fn goes_back_at_the_first_question_once_64_lines_wait(rt: HostRuntime) -> Result<(), Fail> {
    let input = asked_behind(rt.alloc(), 64, b"what\n", GO)?;
    let blocks = times(rt.alloc(), 64, b"unread W1\n")?;
    let back = [
        TO_THE_FIRST,
        BACK_AT_THE_FIRST,
        blocks.as_slice(),
        TAKEN_AWAY,
        QUITS_WITHOUT_WORKERS,
    ];
    assert!(rt; leads_to(rt.alloc(), &input, &back, 1)?);
    Ok(())
}

#[test]
fn goes_back_at_the_second_question_once_64_lines_wait(rt: HostRuntime) -> Result<(), Fail> {
    let input = asked_behind(rt.alloc(), 63, b"what\n", b"WINCH\nwhat\nWINCH\n")?;
    let blocks = times(rt.alloc(), 64, b"unread W1\n")?;
    let late = [
        TO_THE_FIRST,
        TO_THE_SECOND,
        BACK_AT_THE_SECOND,
        blocks.as_slice(),
        TAKEN_AWAY,
        QUITS_WITHOUT_WORKERS,
    ];
    assert!(rt; leads_to(rt.alloc(), &input, &late, 1)?);
    Ok(())
}

/// A reader of a byte at each read, of which one fails, counted from 1. It reads on behind that.
#[derive(Drop)]
struct FailsOnce<'a> {
    text: &'a [u8],
    at: usize,
}

impl Read for FailsOnce<'_> {
    fn read(&mut self, buf: &mut [u8]) -> IoResult<usize> {
        let fails = self.at == 1;
        self.at = self.at.saturating_sub(1);
        if fails {
            return Err(IoError::from(ErrorKind::ConnectionReset));
        }
        match (self.text.split_first(), buf.first_mut()) {
            (Some((first, rest)), Some(place)) => {
                *place = *first;
                self.text = rest;
                Ok(1)
            }
            _ => Ok(0),
        }
    }
}

/// Whether a read that fails behind so many bytes of a text leads to these blocks and no others.
fn fails_behind(alloc: Global, front: &[u8], parts: &[&[u8]]) -> Result<bool, Fail> {
    let wanted = ticked(alloc, parts)?;
    let text = joined(alloc, &[front, b"WINCH\nWINCH\nbeat 0 9\n".as_slice()])?;
    let input = FailsOnce {
        text: &text,
        at: front.len().saturating_add(1),
    };
    let (written, ended) = run(alloc, input, Discard);
    Ok(written.as_slice() == wanted.as_slice() && ended == Err(SupervisorFault::File))
}

/// What a beat that waits comes to.
const A_BEAT: &[u8] = b"word beat 0 5\nnothing\n";

#[test]
fn a_first_read_that_fails_is_a_way_back_and_then_the_fault(rt: HostRuntime) -> Result<(), Fail> {
    let first = [TO_THE_FIRST, BACK_AT_THE_FIRST, A_BEAT];
    assert!(rt; fails_behind(rt.alloc(), b"USR2 attended\n", &first[..2])?);
    assert!(rt; fails_behind(rt.alloc(), b"USR2 attended\nbeat 0 5\n", &first)?);
    Ok(())
}

#[test]
fn a_second_read_that_fails_is_a_way_back_and_then_the_fault(rt: HostRuntime) -> Result<(), Fail> {
    let second = [TO_THE_FIRST, TO_THE_SECOND, BACK_AT_THE_SECOND, A_BEAT];
    assert!(rt; fails_behind(rt.alloc(), b"USR2 attended\nQUIT\n", &second[..3])?);
    assert!(rt; fails_behind(rt.alloc(), b"USR2 attended\nQUIT\nbeat 0 5\n", &second)?);
    Ok(())
}

/// The upgrade of the second master up to its first question.
const TO_THE_THIRD_MASTER: &[u8] = b"word USR2 attended\n\
    1 m2 spawn-master 3 : spawned\n\
    2 m3 adopt : adopted\n\
    3 m2 census 2.2 : counted 0\n\
    4 m3 fork 3.3 0 : forked\n\
    5 m3 await-ready 3.3 0 : ready\n\
    6 m3 census 3.3 : counted 0\n";

/// From there on where it goes over, and the third master quits.
const GONE_OVER_TO_THE_THIRD: &[u8] = b"7 m2 ask 1 : go\n\
    8 m2 quit 2.2 0 : ok\n\
    9 m2 await-gone 2.2 0 : gone\n\
    10 m2 ask 2 : go\n\
    11 m2 alive 3 : alive\n\
    12 m2 leave : ok\n\
    13 m3 census 3.3 : counted 0\n\
    done cause none pid no-file\n\
    word QUIT\n\
    1 m3 quit 3.3 0 : ok\n\
    2 m3 await-gone 3.3 0 : gone\n\
    3 m3 leave : ok\n\
    done cause none pid no-file\n";

/// From there on where it goes back.
const BACK_TO_THE_SECOND: &[u8] = b"7 m2 ask 1 : back\n\
    8 m2 term-master 3 : ok\n\
    9 m2 census 2.2 : counted 0\n\
    rolled-back cause 7 pid no-file\n";

#[test]
fn the_second_master_asks_too(rt: HostRuntime) -> Result<(), Fail> {
    let over = [
        TO_THE_FIRST,
        TO_THE_SECOND,
        GONE_OVER,
        TO_THE_THIRD_MASTER,
        GONE_OVER_TO_THE_THIRD,
    ];
    let input = b"USR2 attended\nQUIT\nWINCH\nUSR2 attended\nWINCH\nQUIT\n";
    assert!(rt; leads_to(rt.alloc(), input, &over, 0)?);
    Ok(())
}

#[test]
fn the_second_master_goes_back_too(rt: HostRuntime) -> Result<(), Fail> {
    let back = [
        TO_THE_FIRST,
        TO_THE_SECOND,
        GONE_OVER,
        TO_THE_THIRD_MASTER,
        BACK_TO_THE_SECOND,
        SECOND_QUITS,
    ];
    let input = b"USR2 attended\nQUIT\nWINCH\nUSR2 attended\nHUP\n";
    assert!(rt; leads_to(rt.alloc(), input, &back, 3)?);
    Ok(())
}

#[test]
fn tells_the_operator_that_it_asks(rt: HostRuntime) -> Result<(), Fail> {
    let log = Logged::new((), LevelFilter::Info, Memory::new(rt.alloc()));
    let input = b"USR2 attended\nwhat\nWINCH\nHUP\nQUIT\n".as_slice();
    let (_, ended) = run(rt.alloc(), input, &log);
    assert!(rt; ended == Ok(1));
    let (_, sink) = log.into_parts();
    let wanted = [
        "[INFO  prefork] tick 0: done",
        "[INFO  prefork] asks 1: WINCH or QUIT goes on, HUP goes back",
        "[INFO  prefork] asks 2: WINCH or QUIT goes on, HUP goes back",
        "[INFO  prefork] USR2 attended: rolled-back",
        "[INFO  prefork] unread W1",
        "[INFO  prefork] QUIT: done",
    ];
    assert!(rt; are_lines(sink.into_lines().as_slice(), &wanted));
    Ok(())
}
