//! Control words of an input, carried out on children in memory.
use crate::setup::{
    FIRST_QUITS, FIRST_TICK, are_lines, could_be_up_to_a_loss, joined, ticked, times,
};
use child_recorder::{FamilyCall, Recorded};
use listener_set::FilePath;
use log::sink::{Discard, Memory};
use log::{LevelFilter, Log, Logged};
use master_on_children::{
    NextRefusal, NextSettings, Operator, Supervised, SupervisorFault, SupervisorStart, supervise_on,
};
use std::alloc::{AllocError, Global};
use std::io::{Error as IoError, ErrorKind, Read, Result as IoResult, Write};
use std::test::Fail;
use vocabulary::Settings;
use word_runner::CodeText;
use worker_groups::Groups;

/// What a reading of the next settings comes to.
#[derive(Clone, Copy)]
enum Gives {
    Plain,
    Refused,
    Unreadable,
    NoMemory,
}

/// Next settings, and how often they were read.
#[derive(Drop)]
struct CountedSettings {
    gives: Gives,
    reads: u32,
}

impl NextSettings for CountedSettings {
    fn read(&mut self) -> Result<Settings, NextRefusal> {
        self.reads = self.reads.saturating_add(1);
        match self.gives {
            Gives::Plain => Ok(Settings::plain()),
            Gives::Refused => Err(NextRefusal::Refused(CodeText::of("C4 ", "workers"))),
            Gives::Unreadable => Err(NextRefusal::Unreadable),
            Gives::NoMemory => Err(NextRefusal::Memory),
        }
    }
}

/// The text of a run over children of which no call fails, and what came of it.
fn run<I: Read + Drop, O: Write>(
    alloc: Global,
    family: Recorded,
    gives: Gives,
    input: I,
    output: &mut O,
) -> Supervised<Recorded> {
    let start = SupervisorStart {
        settings: Settings::plain(),
        pid: 7,
    };
    let mut next = CountedSettings { gives, reads: 0 };
    let operator = Operator {
        input,
        log: &Discard,
    };
    supervise_on(alloc, family, &start, &mut next, operator, output)
}

/// Whether a run over children that obey writes this, and ends so.
fn writes(
    alloc: Global,
    gives: Gives,
    input: &[u8],
    text: &[u8],
    status: Result<u8, SupervisorFault>,
) -> bool {
    let mut output = Vec::new(alloc);
    let ended = run(alloc, Recorded::new(alloc, None), gives, input, &mut output);
    output.as_slice() == text && ended.status == status
}

/// The same of what it writes behind the first tick.
fn writes_then(
    alloc: Global,
    gives: Gives,
    input: &[u8],
    parts: &[&[u8]],
    status: Result<u8, SupervisorFault>,
) -> Result<bool, AllocError> {
    let text = ticked(alloc, parts)?;
    Ok(writes(alloc, gives, input, text.as_slice(), status))
}

/// The name of a call of a family, and what is said or written by it.
fn call_parts(call: &FamilyCall) -> (&'static [u8], &[u8]) {
    match call {
        FamilyCall::Started(..) => (b"start", b""),
        FamilyCall::Said(_, line, _) => (b"say ", line.as_slice()),
        FamilyCall::HeardLine(..) => (b"hear", b""),
        FamilyCall::Stopped(_) => (b"stop", b""),
        FamilyCall::Awaited(..) => (b"gone", b""),
        FamilyCall::Wrote(_, contents, _) => (b"write ", contents.as_slice()),
        FamilyCall::Renamed(..) => (b"rename", b""),
        FamilyCall::Removed(..) => (b"remove", b""),
    }
}

/// The calls of a family, a line each.
fn calls_text(alloc: Global, calls: &[FamilyCall]) -> Result<Vec<u8>, AllocError> {
    let mut text = Vec::new(alloc);
    for call in calls {
        let (name, said) = call_parts(call);
        text.extend_from_slice(name)?;
        text.extend_from_slice(said)?;
        text.push(b'\n')?;
    }
    Ok(text)
}

/// Whether a family was told just this, a line each call.
fn was_told(alloc: Global, family: &Recorded, text: &[u8]) -> Result<bool, AllocError> {
    let calls = calls_text(alloc, family.calls())?;
    Ok(calls.as_slice() == text)
}

const TICK_AND_END: &[u8] = b"tick 1\nQUIT\n";

/// A run of a tick and an end.
const A_TICK_AND_AN_END: &[u8] = b"word tick 0\n\
    1 m1 fork 1.1 0 : forked\n\
    2 m1 await-ready 1.1 0 : ready\n\
    3 m1 census 1.1 : counted 0\n\
    done cause none pid no-file\n\
    word beat 0 1\n\
    nothing\n\
    word tick 1\n\
    1 m1 census 1.1 : counted 0\n\
    done cause none pid no-file\n\
    word QUIT\n\
    1 m1 quit 1.1 0 : ok\n\
    2 m1 await-gone 1.1 0 : gone\n\
    3 m1 leave : ok\n\
    done cause none pid no-file\n";

/// What the family is told then.
const ITS_CALLS: &[u8] = b"start\n\
    say worker 1.1 0 1\n\
    say listener 0.0.0.0:8080\n\
    say go\n\
    hear\n\
    say ping\n\
    hear\n\
    say tick 1\n\
    hear\n\
    say ping\n\
    hear\n\
    say quit\n\
    hear\n\
    gone\n";

#[test]
fn tells_a_family_just_this(rt: HostRuntime) -> Result<(), Fail> {
    let alloc = rt.alloc();
    let mut output = Vec::new(alloc);
    let family = Recorded::new(alloc, None);
    let ended = run(alloc, family, Gives::Plain, TICK_AND_END, &mut output);
    assert!(rt; ended.status == Ok(0));
    assert!(rt; output.as_slice() == A_TICK_AND_AN_END);
    assert!(rt; was_told(alloc, &ended.family, ITS_CALLS)?);
    Ok(())
}

#[test]
fn quits_at_the_end_of_its_input(rt: HostRuntime) -> Result<(), Fail> {
    // the same without the word, and with a last line that has no newline
    for input in [
        b"tick 1\n".as_slice(),
        b"tick 1\nQUIT".as_slice(),
        b"tick 1".as_slice(),
    ] {
        assert!(rt; writes(rt.alloc(), Gives::Plain, input, A_TICK_AND_AN_END, Ok(0)));
    }
    Ok(())
}

#[test]
fn quits_at_once_where_its_input_is_empty(rt: HostRuntime) -> Result<(), Fail> {
    assert!(rt; writes_then(rt.alloc(), Gives::Plain, b"", &[FIRST_QUITS], Ok(0))?);
    Ok(())
}

#[test]
fn goes_on_after_lines_that_are_refused(rt: HostRuntime) -> Result<(), Fail> {
    let alloc = rt.alloc();
    let long = times(alloc, 5_000, b"a")?;
    let lines = [
        b"hello\ntick 01\n".as_slice(),
        long.as_slice(),
        b"\nbeat 0 5\nbeat 7 5\nQUIT\nTTIN\ntick 9\n\n".as_slice(),
    ];
    let input = joined(alloc, &lines)?;
    let blocks = [
        b"unread W1\nunread W2\nunread W1\nword beat 0 5\nnothing\nword beat 7 5\nrefused T3\n".as_slice(),
        FIRST_QUITS,
        b"word TTIN\nrefused V1\nword tick 9\nrefused V1\nunread W1\n".as_slice(),
    ];
    assert!(rt; writes_then(alloc, Gives::Plain, &input, &blocks, Ok(1))?);
    Ok(())
}

#[test]
fn refuses_a_reload_whose_settings_are_refused(rt: HostRuntime) -> Result<(), Fail> {
    let reload = b"HUP\nQUIT\n".as_slice();
    let refused = [b"word HUP\nrefused C4 workers\n".as_slice(), FIRST_QUITS];
    assert!(rt; writes_then(rt.alloc(), Gives::Refused, reload, &refused, Ok(1))?);
    let unreadable = [b"word HUP\nrefused W4\n".as_slice(), FIRST_QUITS];
    assert!(rt; writes_then(rt.alloc(), Gives::Unreadable, reload, &unreadable, Ok(1))?);
    Ok(())
}

#[test]
fn ends_where_there_is_no_memory_for_its_settings(rt: HostRuntime) -> Result<(), Fail> {
    let short = Err(SupervisorFault::Memory);
    assert!(rt;
        writes(
            rt.alloc(),
            Gives::NoMemory,
            b"HUP\nQUIT\n",
            FIRST_TICK,
            short
        )
    );
    Ok(())
}

#[test]
fn reads_no_settings_without_a_master(rt: HostRuntime) -> Result<(), Fail> {
    let refused = b"word HUP\nrefused V1\nword USR2\nrefused V1\n".as_slice();
    let blocks = [FIRST_QUITS, refused];
    assert!(rt;
        writes_then(
            rt.alloc(),
            Gives::NoMemory,
            b"QUIT\nHUP\nUSR2\n",
            &blocks,
            Ok(1)
        )?
    );
    Ok(())
}

/// A reader of a byte at each read, that fails at one, counted from 1.
#[derive(Drop)]
struct FailingReader<'a> {
    text: &'a [u8],
    at: u32,
}

impl Read for FailingReader<'_> {
    fn read(&mut self, buf: &mut [u8]) -> IoResult<usize> {
        if self.at == 1 {
            return Err(IoError::from(ErrorKind::ConnectionReset));
        }
        self.at = self.at.saturating_sub(1);
        match (self.text.split_first(), buf.first_mut()) {
            (Some((first, rest)), Some(place)) => {
                *place = *first;
                self.text = rest;
                Ok(1)
            }
            _ => Ok(0),
        }
    }
}

/// A writer that fails at a write or a flush, counted from 1 over both.
#[derive(Drop)]
struct FailingWriter {
    written: Vec<u8>,
    at: u32,
}

impl FailingWriter {
    fn fails(&mut self) -> bool {
        let fails = self.at == 1;
        self.at = self.at.saturating_sub(1);
        fails
    }
}

impl Write for FailingWriter {
    fn write(&mut self, buf: &[u8]) -> IoResult<usize> {
        if self.fails() {
            return Err(IoError::from(ErrorKind::BrokenPipe));
        }
        self.written.extend_from_slice(buf)?;
        Ok(buf.len())
    }

    fn flush(&mut self) -> IoResult<()> {
        if self.fails() {
            return Err(IoError::from(ErrorKind::BrokenPipe));
        }
        Ok(())
    }
}

/// Whether a run over children that obey ends well, or with the fault `file` where it should.
fn ends_or_fails<I: Read + Drop, O: Write>(
    alloc: Global,
    input: I,
    output: &mut O,
    fails: bool,
) -> bool {
    let family = Recorded::new(alloc, None);
    let ended = run(alloc, family, Gives::Plain, input, output);
    let wanted = if fails {
        Err(SupervisorFault::File)
    } else {
        Ok(0)
    };
    ended.status == wanted
}

/// Whether a run ends at the read of that number, which fails, and has written a part of what it writes else.
fn ends_at_read(alloc: Global, at: u32) -> bool {
    let text = TICK_AND_END;
    let mut output = Vec::new(alloc);
    ends_or_fails(alloc, FailingReader { text, at }, &mut output, at <= 13)
        && A_TICK_AND_AN_END.starts_with(output.as_slice())
}

#[test]
fn ends_where_a_read_fails(rt: HostRuntime) -> Result<(), Fail> {
    for at in 1..16 {
        assert!(rt; ends_at_read(rt.alloc(), at), "at {at}");
    }
    Ok(())
}

/// The same of a write or a flush.
fn ends_at_write(alloc: Global, at: u32) -> bool {
    let written = Vec::new(alloc);
    let mut output = FailingWriter { written, at };
    ends_or_fails(alloc, TICK_AND_END, &mut output, at <= 8)
        && A_TICK_AND_AN_END.starts_with(output.written.as_slice())
}

#[test]
fn ends_where_a_write_fails(rt: HostRuntime) -> Result<(), Fail> {
    for at in 1..12 {
        assert!(rt; ends_at_write(rt.alloc(), at), "at {at}");
    }
    Ok(())
}

/// Whether a run ends where that call of its children fails, and a modelled kernel could have given its blocks, up to one
/// that is lost.
fn ends_so(alloc: Global, fails: usize, input: &[u8]) -> Result<bool, Fail> {
    let mut output = Vec::new(alloc);
    let family = Recorded::new(alloc, Some(fails));
    let ended = run(alloc, family, Gives::Plain, input, &mut output);
    Ok(matches!(ended.status, Ok(0 | 1 | 3 | 4)) && could_be_up_to_a_loss(alloc, &output)?)
}

#[test]
fn ends_whichever_call_of_its_children_fails(rt: HostRuntime) -> Result<(), Fail> {
    for fails in 0..40 {
        assert!(rt; ends_so(rt.alloc(), fails, TICK_AND_END)?, "at {fails}");
        assert!(rt; ends_so(rt.alloc(), fails, b"USR2\nQUIT\n")?, "at {fails}");
    }
    Ok(())
}

/// An upgrade to a new master.
const A_SUCCESSION: &[u8] = b"word USR2\n\
    1 m1 spawn-master 2 : spawned\n\
    2 m2 adopt : adopted\n\
    3 m1 census 1.1 : counted 0\n\
    4 m2 fork 2.2 0 : forked\n\
    5 m2 await-ready 2.2 0 : ready\n\
    6 m2 census 2.2 : counted 0\n\
    7 m1 quit 1.1 0 : ok\n\
    8 m1 await-gone 1.1 0 : gone\n\
    9 m1 alive 2 : alive\n\
    10 m1 leave : ok\n\
    11 m2 census 2.2 : counted 0\n\
    done cause none pid no-file\n";

#[test]
fn goes_over_to_a_new_master(rt: HostRuntime) -> Result<(), Fail> {
    let alloc = rt.alloc();
    let text = ticked(alloc, &[A_SUCCESSION])?;
    let mut output = Vec::new(alloc);
    let family = Recorded::new(alloc, None);
    let input = b"USR2\n".as_slice();
    let ended = run(alloc, family, Gives::Plain, input, &mut output);
    assert!(rt; output.starts_with(text.as_slice()));
    assert!(rt; ended.status.is_ok());
    Ok(())
}

/// What comes of a master with a pid file and without workers, whose input is empty: of the call of that number, which
/// fails. Nothing where the next settings were read.
fn run_with_a_file(
    alloc: Global,
    fails: Option<usize>,
    output: &mut Vec<u8>,
) -> Result<Option<Supervised<Recorded>>, Fail> {
    let settings = Settings {
        workers: 0,
        groups: Groups::one(1, 0),
        pid: Some(FilePath::read(b"/run/a.pid")?),
        ..Settings::plain()
    };
    let start = SupervisorStart { settings, pid: 41 };
    let mut next = CountedSettings {
        gives: Gives::Plain,
        reads: 0,
    };
    let input = b"".as_slice();
    let log = Discard;
    let operator = Operator { input, log };
    let family = Recorded::new(alloc, fails);
    let ended = supervise_on(alloc, family, &start, &mut next, operator, output);
    Ok((next.reads == 0).then_some(ended))
}

#[test]
fn writes_the_pid_file_first(rt: HostRuntime) -> Result<(), Fail> {
    let mut output = Vec::new(rt.alloc());
    let Some(ended) = run_with_a_file(rt.alloc(), None, &mut output)? else {
        return Err(Fail::from("settings were read"));
    };
    assert!(rt; ended.status == Ok(0));
    assert!(rt; was_told(rt.alloc(), &ended.family, b"write 41\n\nremove\n")?);
    Ok(())
}

#[test]
fn ends_where_the_pid_file_cannot_be_written(rt: HostRuntime) -> Result<(), Fail> {
    let mut output = Vec::new(rt.alloc());
    let Some(ended) = run_with_a_file(rt.alloc(), Some(0), &mut output)? else {
        return Err(Fail::from("settings were read"));
    };
    assert!(rt; ended.status == Err(SupervisorFault::File));
    assert!(rt; was_told(rt.alloc(), &ended.family, b"write 41\n\n")?);
    assert!(rt; output.is_empty());
    Ok(())
}

/// Whether a run with this log is refused a reload, and reads the next settings once.
fn is_refused_a_reload<L: Log + Drop>(alloc: Global, log: L) -> bool {
    let settings = Settings::plain();
    let start = SupervisorStart { settings, pid: 7 };
    let mut next = CountedSettings {
        gives: Gives::Refused,
        reads: 0,
    };
    let input = b"tick 1\nHUP\nwhat\nQUIT\n".as_slice();
    let operator = Operator { input, log };
    let family = Recorded::new(alloc, None);
    let mut output = Vec::new(alloc);
    let ended = supervise_on(alloc, family, &start, &mut next, operator, &mut output);
    ended.status == Ok(1) && next.reads == 1
}

#[test]
fn logs_a_line_for_each_block(rt: HostRuntime) -> Result<(), Fail> {
    let log = Logged::new((), LevelFilter::Info, Memory::new(rt.alloc()));
    assert!(rt; is_refused_a_reload(rt.alloc(), &log));
    let (_, sink) = log.into_parts();
    let wanted = [
        "[INFO  prefork] tick 0: done",
        "[INFO  prefork] beat 0 1: nothing",
        "[INFO  prefork] tick 1: done",
        "[INFO  prefork] HUP: refused C4 workers",
        "[INFO  prefork] unread W1",
        "[INFO  prefork] QUIT: done",
    ];
    assert!(rt; are_lines(sink.into_lines().as_slice(), &wanted));
    Ok(())
}
