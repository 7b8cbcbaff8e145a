//! Children that keep their master waiting, under a limit of three seconds: what it hears, and that it goes on.
use crate::setup::{Counted, Families, Says, Trial, WORKER, hear_one, holds, scripted};
use crate::shells::shell;
use child_family::{Family, Heard};
use child_processes::{ChildLimits, OsFamily};
use log::Log;
use log::sink::Memory;
use plain_text::Line;
use std::alloc::AllocError;
use std::test::Fail;

const SHORT: ChildLimits = ChildLimits {
    answer: 3,
    ready: 3,
};

/// A worker on a script is taken for one that has ended, before it says a line, and leaves no child.
#[derive(Clone, Copy)]
struct TakenForEnded<'a> {
    script: &'a str,
}

impl Trial for TakenForEnded<'_> {
    fn holds<M: Families>(&self, families: &M) -> Result<bool, Fail> {
        let mut family = scripted(families, self.script)?;
        let heard = hear_one(&mut family, &WORKER, &mut Line::new());
        Ok(heard == Some(Heard::Ended) && family.left() == 0)
    }
}

/// Whether a trial holds where each wait is for three seconds at most.
fn holds_in_time<T: Trial>(rt: &HostRuntime, trial: &T) -> Result<bool, Fail> {
    holds(rt, Some(SHORT), trial)
}

#[test]
fn one_that_says_nothing_has_ended(rt: HostRuntime) -> Result<(), Fail> {
    for script in ["exec sleep 1000", "kill -STOP $$"] {
        assert!(rt; holds_in_time(&rt, &TakenForEnded { script })?, "{script}");
    }
    Ok(())
}

#[test]
fn the_limit_is_for_a_whole_line(rt: HostRuntime) -> Result<(), Fail> {
    let dribbles = TakenForEnded {
        script: "while :; do printf x; sleep 0.1; done",
    };
    assert!(rt; holds_in_time(&rt, &dribbles)?);
    let says = Says {
        script: "printf a; sleep 0.1; echo b",
        text: b"ab",
    };
    assert!(rt; holds_in_time(&rt, &says)?);
    Ok(())
}

#[test]
fn one_that_is_gone_and_stays_is_killed(rt: HostRuntime) -> Result<(), Fail> {
    let stays = Says {
        script: "echo gone; exec sleep 1000",
        text: b"gone",
    };
    assert!(rt; holds_in_time(&rt, &stays)?);
    Ok(())
}

/// Whether a child can be told a word twenty thousand times.
fn is_told_much<F: Family>(family: &mut F, id: u32) -> bool {
    let mut is_said = true;
    for _ in 0..20_000 {
        is_said = is_said && family.say(id, b"usr1");
    }
    is_said
}

/// Whether a child has said a line before it ended, and can be waited for then.
fn ends_after_a_line<F: Family>(family: &mut F, id: u32) -> bool {
    let mut line = Line::new();
    family.hear(id, &mut line) == Heard::Line
        && family.hear(id, &mut line) == Heard::Ended
        && family.gone(id)
}

/// A worker that reads nothing can be told no more in the end, and is killed then.
#[derive(Clone, Copy)]
struct ReadsNothing;

impl Trial for ReadsNothing {
    fn holds<M: Families>(&self, families: &M) -> Result<bool, Fail> {
        let mut family = scripted(families, "echo ready; exec sleep 1000")?;
        let Ok(id) = family.start(&WORKER) else {
            return Ok(true);
        };
        Ok(!is_told_much(&mut family, id) && ends_after_a_line(&mut family, id))
    }
}

#[test]
fn one_that_reads_nothing_is_killed(rt: HostRuntime) -> Result<(), Fail> {
    assert!(rt; holds_in_time(&rt, &ReadsNothing)?);
    Ok(())
}

/// A limit for readiness alone: neither an answer nor room in the input has one.
const READY_ALONE: ChildLimits = ChildLimits {
    answer: 0,
    ready: 60,
};

/// Whether a child can be told more than a pipe holds, in forty lines.
fn is_told_long_lines<F: Family>(family: &mut F, id: u32) -> bool {
    let mut is_said = true;
    for _ in 0..40 {
        is_said = is_said && family.say(id, &[b'x'; 4_000]);
    }
    is_said
}

/// A worker that reads nothing for a while is told all, once it reads.
#[derive(Clone, Copy)]
struct ReadsLate;

impl Trial for ReadsLate {
    fn holds<M: Families>(&self, families: &M) -> Result<bool, Fail> {
        let mut family = scripted(families, "sleep 2; exec cat >/dev/null")?;
        let Ok(id) = family.start(&WORKER) else {
            return Ok(true);
        };
        let is_told = is_told_long_lines(&mut family, id);
        family.end();
        Ok(is_told)
    }
}

#[test]
fn one_that_reads_late_is_told_all_under_a_limit_for_readiness_alone(
    rt: HostRuntime,
) -> Result<(), Fail> {
    assert!(rt; holds(&rt, Some(READY_ALONE), &ReadsLate)?);
    Ok(())
}

/// The first worker says nothing; the second has said its line by the time that the first is killed.
const FIRST_HANGS: &str = "read -r which; [ \"$which\" = 0 ] && exec sleep 1000; echo \"$which\"";

/// Whether the first of two such workers has ended, and then the second is heard.
fn only_the_second_is_heard<F: Family>(family: &mut F, first: u32, second: u32) -> bool {
    let mut line = Line::new();
    family.say(first, b"0")
        && family.say(second, b"1")
        && family.hear(first, &mut line) == Heard::Ended
        && family.hear(second, &mut line) == Heard::Line
        && line.bytes() == b"1".as_slice()
}

/// Starts two such workers. Whether it is so of them, and they can be waited for.
fn the_later_one_is_heard<F: Family>(family: &mut F) -> bool {
    let (Ok(first), Ok(second)) = (family.start(&WORKER), family.start(&WORKER)) else {
        return true;
    };
    only_the_second_is_heard(family, first, second) && family.gone(first) && family.gone(second)
}

/// The first of two workers hangs, and the second is heard.
#[derive(Clone, Copy)]
struct FirstHangs;

impl Trial for FirstHangs {
    fn holds<M: Families>(&self, families: &M) -> Result<bool, Fail> {
        Ok(the_later_one_is_heard(&mut scripted(families, FIRST_HANGS)?))
    }
}

#[test]
fn an_answer_that_is_there_is_heard_however_late(rt: HostRuntime) -> Result<(), Fail> {
    assert!(rt; holds_in_time(&rt, &FirstHangs)?);
    Ok(())
}

/// Starts three workers. Whether none is left once they are ended.
fn end_together<F: Counted>(family: &mut F) -> bool {
    for _ in 0..3 {
        if family.start(&WORKER).is_err() {
            return false;
        }
    }
    family.end();
    family.left() == 0
}

/// Workers that are stopped end with their family.
#[derive(Clone, Copy)]
struct Stopped;

impl Trial for Stopped {
    fn holds<M: Families>(&self, families: &M) -> Result<bool, Fail> {
        Ok(end_together(&mut scripted(families, "kill -STOP $$")?))
    }
}

#[test]
fn finish_ends_those_that_do_not_end(rt: HostRuntime) -> Result<(), Fail> {
    assert!(rt; holds_in_time(&rt, &Stopped)?);
    Ok(())
}

/// Pings a worker that is ready and gives no answer. Whether it has ended by that; nothing where it was not started.
fn is_killed_for_its_silence<F: Family>(family: &mut F) -> Option<bool> {
    let Ok(id) = family.start(&WORKER) else {
        return None;
    };
    let is_ready = family.hear(id, &mut Line::new()) == Heard::Line;
    let is_asked = is_ready && family.say(id, b"ping");
    let is_ended = is_asked && family.hear(id, &mut Line::new()) == Heard::Ended;
    Some(is_ended && family.gone(id))
}

/// The same for a worker of a family with a log.
fn is_killed_and_logged<L: Log + Drop>(
    rt: &HostRuntime,
    log: L,
) -> Result<Option<bool>, AllocError> {
    let command = shell(rt.alloc(), "echo ready; read -r asked; exec sleep 1000")?;
    let family = OsFamily::new(rt.alloc(), rt, "none", command.as_slice())?;
    Ok(is_killed_for_its_silence(&mut family.limited(SHORT, log)))
}

/// Whether a line tells that the worker was killed, and why.
fn tells_why(line: &str) -> bool {
    line.contains("killed worker 1.1 0, process ") && line.contains(": no answer within 3 s")
}

#[test]
fn who_is_killed_is_logged_with_the_reason(rt: HostRuntime) -> Result<(), Fail> {
    let log = Memory::new(rt.alloc());
    match is_killed_and_logged(&rt, &log)? {
        None => return Ok(()),
        Some(is_killed) => assert!(rt; is_killed),
    }
    let lines = log.into_lines();
    assert!(rt; lines.len() == 1);
    assert!(rt;
        lines
            .as_slice()
            .first()
            .is_some_and(|line| tells_why(line.as_str()))
    );
    Ok(())
}
