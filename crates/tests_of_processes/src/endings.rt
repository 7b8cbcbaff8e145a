//! As what children are started, and how they end with their master.
use crate::setup::{Counted, FIRST, Families, Says, Trial, WORKER, holds, says_first, scripted};
use crate::shells::{shell, worker};
use child_family::{Family, Heard, Role, StartFault};
use plain_text::Line;
use std::alloc::{AllocError, Global};
use std::process;
use std::test::Fail;

const MASTER: Role = Role::Master { image: 2 };

/// A worker and a master say this first, of which the master writes the word that it is started with.
#[derive(Clone, Copy)]
struct FirstWords<'a> {
    command: &'a [String],
    worker: &'a [u8],
    master: &'a [u8],
}

impl Trial for FirstWords<'_> {
    fn holds<M: Families>(&self, families: &M) -> Result<bool, Fail> {
        let mut family = families.make("echo", self.command)?;
        Ok(
            says_first(&mut family, &WORKER, self.worker)
                && says_first(&mut family, &MASTER, self.master),
        )
    }
}

#[test]
fn starts_its_program_with_a_word(rt: HostRuntime) -> Result<(), Fail> {
    let words = FirstWords {
        command: &[],
        worker: b"child",
        master: b"adopt",
    };
    assert!(rt; holds(&rt, None, &words)?);
    Ok(())
}

#[test]
fn hands_no_command_to_a_master(rt: HostRuntime) -> Result<(), Fail> {
    let command = shell(rt.alloc(), "echo worker $#")?;
    let words = FirstWords {
        command: command.as_slice(),
        worker: b"worker 0",
        master: b"adopt",
    };
    assert!(rt; holds(&rt, None, &words)?);
    Ok(())
}

/// Says `same` where its standard error is that of who started it.
const SAME_ERRORS: &str = "own=$(readlink /proc/$$/fd/2); masters=$(readlink /proc/$PPID/fd/2); \
    [ -n \"$own\" ] && [ \"$own\" = \"$masters\" ] && echo same";

#[test]
fn a_child_has_the_standard_error_of_its_master(rt: HostRuntime) -> Result<(), Fail> {
    let says = Says {
        script: SAME_ERRORS,
        text: b"same",
    };
    assert!(rt; holds(&rt, None, &says)?);
    Ok(())
}

/// Says how many descriptors its master has open, and how many children, once it is asked: before that its master may
/// still have some open for its start.
const COUNTS: &str = "read asked; \
    echo $(ls /proc/$PPID/fd | wc -l) $(cat /proc/$PPID/task/$PPID/children | wc -w)";

/// Starts a child that counts, hears what it says, and waits for its end.
fn count<F: Family>(family: &mut F, line: &mut Line) -> bool {
    let Ok(id) = family.start(&WORKER) else {
        return false;
    };
    let is_asked = family.say(id, b"count");
    let heard = family.hear(id, line);
    family.gone(id) && is_asked && heard == Heard::Line
}

/// What a child that counts says now. It is the only one of its family.
fn counted<M: Families>(families: &M) -> Result<Line, Fail> {
    let mut family = scripted(families, COUNTS)?;
    let mut line = Line::new();
    if count(&mut family, &mut line) {
        Ok(line)
    } else {
        Err(Fail::from("nothing was counted"))
    }
}

/// Whether as many are counted now as before.
fn is_counted_again<M: Families>(families: &M, before: &Line) -> Result<bool, Fail> {
    let now = counted(families)?;
    Ok(now.bytes() == before.bytes())
}

/// A worker at its start of that number.
fn start_of(start: u32) -> Role {
    Role::Worker {
        generation: FIRST,
        nr: 0,
        start,
    }
}

/// Starts so many workers.
fn start_many<F: Family>(
    alloc: Global,
    family: &mut F,
    count: u32,
) -> Result<Vec<u32>, AllocError> {
    let mut ids = Vec::new(alloc);
    for start in 1..=count {
        if let Ok(id) = family.start(&start_of(start)) {
            ids.push(id)?;
        }
    }
    Ok(ids)
}

/// Whether each child could be told to quit.
fn tell_to_quit<F: Family>(family: &mut F, ids: &[u32]) -> bool {
    let mut is_said = true;
    for id in ids {
        is_said = family.say(*id, b"quit") && is_said;
    }
    is_said
}

/// Whether a child is heard to say one line more, and then to end.
fn says_its_last<F: Family>(family: &mut F, id: u32) -> bool {
    let mut line = Line::new();
    let last = family.hear(id, &mut line);
    let end = family.hear(id, &mut line);
    last == Heard::Line && end == Heard::Ended
}

/// Tells children to quit, and hears each to its end. Whether each said one line.
fn quit_all<F: Family>(family: &mut F, ids: &[u32]) -> bool {
    let mut is_fine = tell_to_quit(family, ids);
    for id in ids {
        is_fine = says_its_last(family, *id) && is_fine;
    }
    is_fine
}

/// A family of workers that obey.
fn obeying<M: Families>(families: &M) -> Result<M::Made, AllocError> {
    let command = worker(families.alloc(), "none", "exit 1")?;
    families.make("none", command.as_slice())
}

/// Starts two hundred workers, where others are counted with them than before. Whether all of them quit.
fn two_hundred_quit<M: Families>(
    families: &M,
    family: &mut M::Made,
    before: &Line,
) -> Result<bool, Fail> {
    let ids = start_many(families.alloc(), family, 200)?;
    let are_there = ids.len() == 200 && family.left() == 200;
    Ok(are_there && !is_counted_again(families, before)? && quit_all(family, ids.as_slice()))
}

/// Nothing is left of two hundred that quit once the family has ended.
#[derive(Clone, Copy)]
struct NothingIsLeft;

impl Trial for NothingIsLeft {
    fn holds<M: Families>(&self, families: &M) -> Result<bool, Fail> {
        let before = counted(families)?;
        let mut family = obeying(families)?;
        let is_quit = two_hundred_quit(families, &mut family, &before)?;
        family.end();
        Ok(is_quit && family.left() == 0 && is_counted_again(families, &before)?)
    }
}

#[test]
fn two_hundred_that_quit_leave_nothing(rt: HostRuntime) -> Result<(), Fail> {
    assert!(rt; holds(&rt, None, &NothingIsLeft)?);
    Ok(())
}

/// Pings a child so many times. A family waits at each for one more of those that have quit.
fn ping<F: Family>(family: &mut F, id: u32, times: u32) -> bool {
    let mut line = Line::new();
    for _ in 0..times {
        if !family.say(id, b"ping") || family.hear(id, &mut line) != Heard::Line {
            return false;
        }
    }
    true
}

/// Pings a child until it is the only one, at most 5,000 times.
fn is_alone_in_time<F: Counted>(family: &mut F, id: u32) -> bool {
    for _ in 0..50 {
        if family.left() > 1 && !ping(family, id, 100) {
            return false;
        }
    }
    family.left() == 1
}

/// Starts two hundred workers. Whether all that were started quit.
fn more_quit<F: Family>(alloc: Global, family: &mut F) -> Result<bool, AllocError> {
    let ids = start_many(alloc, family, 200)?;
    Ok(quit_all(family, ids.as_slice()))
}

/// Nothing is left of two hundred that quit while another one is pinged.
#[derive(Clone, Copy)]
struct OneIsLeft;

impl Trial for OneIsLeft {
    fn holds<M: Families>(&self, families: &M) -> Result<bool, Fail> {
        let mut family = obeying(families)?;
        let Ok(stays) = family.start(&WORKER) else {
            return Ok(false);
        };
        let before = counted(families)?;
        let is_quit = more_quit(families.alloc(), &mut family)?;
        let is_alone = is_quit && is_alone_in_time(&mut family, stays);
        Ok(is_alone && is_counted_again(families, &before)?)
    }
}

#[test]
fn two_hundred_that_quit_are_waited_for_of_themselves(rt: HostRuntime) -> Result<(), Fail> {
    assert!(rt; holds(&rt, None, &OneIsLeft)?);
    Ok(())
}

/// Starts a worker and tells it to quit. Whether it says its last.
fn quits_at_once<F: Family>(family: &mut F, start: u32) -> Result<bool, StartFault> {
    let id = family.start(&start_of(start))?;
    Ok(family.say(id, b"quit") && says_its_last(family, id))
}

/// Whether five workers quit, and are not all left then.
fn five_quit<F: Counted>(family: &mut F) -> bool {
    for start in 1..6 {
        match quits_at_once(family, start) {
            Err(StartFault::NoMemory) => return true,
            Ok(true) => {}
            _ => return false,
        }
    }
    family.left() < 5
}

/// A worker that quits is waited for where the next ones start.
#[derive(Clone, Copy)]
struct FewAreLeft;

impl Trial for FewAreLeft {
    fn holds<M: Families>(&self, families: &M) -> Result<bool, Fail> {
        Ok(five_quit(&mut obeying(families)?))
    }
}

#[test]
fn waits_of_itself_for_those_that_quit(rt: HostRuntime) -> Result<(), Fail> {
    assert!(rt; holds(&rt, None, &FewAreLeft)?);
    Ok(())
}

/// Starts three workers and a master. Whether they end with the family.
fn end_with_it<F: Counted>(alloc: Global, family: &mut F) -> Result<bool, AllocError> {
    let workers = start_many(alloc, family, 3)?.len();
    let master = family.start(&MASTER);
    family.end();
    let left = family.left();
    family.end();
    Ok(workers == 3 && master.is_ok() && left == 0)
}

/// Workers on a script end with their family, and so does a master that writes without an end.
#[derive(Clone, Copy)]
struct EndsWithIt<'a> {
    script: &'a str,
}

impl Trial for EndsWithIt<'_> {
    fn holds<M: Families>(&self, families: &M) -> Result<bool, Fail> {
        let command = shell(families.alloc(), self.script)?;
        let mut family = families.make("yes", command.as_slice())?;
        Ok(end_with_it(families.alloc(), &mut family)?)
    }
}

/// Whether workers that leave a line each in the file of that number, when they end, do so.
fn leave_lines(rt: &HostRuntime, number: u32) -> Result<bool, Fail> {
    // it is at work when its input ends, and then writes more than a pipe holds
    let script = format!(in rt.alloc(); "cat; sleep 0.1; echo >>/tmp/prefork-{number}.ends; yes")?;
    let script = script.as_str();
    holds(rt, None, &EndsWithIt { script })
}

/// Whether three lines are found there. The file is removed.
fn three_lines_are_left(rt: &HostRuntime, number: u32) -> Result<bool, Fail> {
    let script = format!(in rt.alloc();
        "wc -l </tmp/prefork-{number}.ends; rm /tmp/prefork-{number}.ends"
    )?;
    let script = script.as_str();
    holds(rt, None, &Says { script, text: b"3" })
}

#[test]
fn takes_its_children_with_it(rt: HostRuntime) -> Result<(), Fail> {
    let number = process::id(rt.process());
    assert!(rt; leave_lines(&rt, number)?);
    assert!(rt; three_lines_are_left(&rt, number)?);
    Ok(())
}
