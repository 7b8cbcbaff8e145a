//! Workers on pipes.
use crate::piped::{Output, joined, long_line, slow_worker_says, worker_says};
use child_programs::serve_worker;
use std::alloc::{AllocError, Global};
use std::test::Fail;

const LIFE: &[u8] =
    b"worker 1.2 3 7\nlistener 0.0.0.0:8080\nlistener /run/a.sock\ngo\nping\ntick 5\n\
    tick 18446744073709551615\nusr1\nclose 0.0.0.0:8080\nping\nquit\n";

const SAID: &[u8] = b"ready\npong\nbeat 5 7\nbeat 18446744073709551615 7\npong\ngone\n";

#[test]
fn a_worker_obeys(rt: HostRuntime) -> Result<(), Fail> {
    let alloc = rt.alloc();
    assert!(rt; worker_says(alloc, LIFE, SAID, 0));
    assert!(rt; slow_worker_says(alloc, LIFE, SAID));

    // what follows `quit` is not heard
    let told = joined(alloc, &[LIFE, b"what\n"])?;
    assert!(rt; worker_says(alloc, told.as_slice(), SAID, 0));
    Ok(())
}

/// What a worker says to one line.
const ANSWERS: [(&[u8], &[u8]); 15] = [
    (b"worker 0.0 0 0\n", b""),
    (b"worker 4294967295.4294967295 1023 4294967295\n", b""),
    (b"listener 255.255.255.255:65535\n", b""),
    (b"listener /\n", b""),
    (b"go\n", b"ready\n"),
    (b"ping\n", b"pong\n"),
    (b"usr1\n", b""),
    (b"close 0.0.0.0:1\n", b""),
    (b"close /run/a.sock\n", b""),
    (b"quit\n", b"gone\n"),
    (b"worker 1.1 0 1\ntick 0\n", b"beat 0 1\n"),
    (
        b"worker 1.1 0 1\nworker 1.1 0 4294967295\ntick 10\n",
        b"beat 10 4294967295\n",
    ),
    (b"go\ngo\nping\nping\n", b"ready\nready\npong\npong\n"),

    // a line without its newline is not heard
    (b"go\nping", b"ready\n"),
    (b"", b""),
];

#[test]
fn a_worker_answers_each_line(rt: HostRuntime) -> Result<(), Fail> {
    let alloc = rt.alloc();
    for (told, said) in &ANSWERS {
        assert!(rt; worker_says(alloc, told, said, 0));
    }
    Ok(())
}

/// Lines that a worker can't be told.
const OTHERS: [&[u8]; 50] = [
    b"",
    b" ",
    b"go ",
    b" go",
    b"Go",
    b"go\r",
    b"go\0",
    b"ping 1",
    b"pong",
    b"tick",
    b"tick ",
    b"tick 01",
    b"tick +1",
    b"tick -1",
    b"tick 1 ",
    b"tick  1",
    b"tick 1 1",
    b"ticks 1",
    b"tick 18446744073709551616",
    b"usr1 ",
    b"usr1 1",
    b"usr",
    b"usr2",
    b"quit ",
    b"quit 1",
    b"gone",
    b"close",
    b"close ",
    b"close 0.0.0.0",
    b"close 0.0.0.0:0",
    b"close 0.0.0.0:8080 ",
    b"listener",
    b"listener ",
    b"listener x",
    b"listener 0.0.0.0:65536",
    b"worker",
    b"worker ",
    b"worker 1.1",
    b"worker 1.1 0",
    b"worker 1.1 0 1 ",
    b"worker  1.1 0 1",
    b"worker 01.1 0 1",
    b"worker 1 0 1",
    b"worker 1.1.1 0 1",
    b"worker 1.1 1024 1",
    b"worker 4294967296.1 0 1",
    b"worker 1.4294967296 0 1",
    b"worker 1.1 0 4294967296",
    b"worker 1.1 0 01",
    b"alive",
];

/// Whether a worker fails at a line, once it was told to go.
fn fails_at(alloc: Global, line: &[u8]) -> Result<bool, AllocError> {
    let told = joined(alloc, &[b"worker 1.1 0 1\ngo\n", line, b"\nping\n"])?;
    Ok(worker_says(alloc, told.as_slice(), b"ready\n", 1))
}

#[test]
fn a_worker_fails_at_any_other_line(rt: HostRuntime) -> Result<(), Fail> {
    for (at, line) in OTHERS.iter().enumerate() {
        assert!(rt; fails_at(rt.alloc(), line)?, "at {at}");
    }

    // it was not told its start
    assert!(rt; worker_says(rt.alloc(), b"go\ntick 1\nping\n", b"ready\n", 1));
    Ok(())
}

#[test]
fn a_worker_fails_at_a_line_that_is_too_long(rt: HostRuntime) -> Result<(), Fail> {
    let alloc = rt.alloc();
    for bytes in [4096, 4097, 5000, 20000] {
        let line = long_line(alloc, bytes)?;
        let told = joined(alloc, &[b"go\n", line.as_slice(), b"ping\n"])?;
        assert!(rt; worker_says(alloc, told.as_slice(), b"ready\n", 1));
    }
    Ok(())
}

/// Whether a worker whose write of that number fails ends with it.
fn fails_at_write(alloc: Global, fails: usize) -> bool {
    let mut output = Output::new(alloc, Some(fails));
    serve_worker(LIFE, &mut output) == 1
        && SAID.starts_with(output.text())
        && output.has_said(fails)
}

#[test]
fn a_worker_fails_where_it_cannot_answer(rt: HostRuntime) -> Result<(), Fail> {
    for fails in 0..6 {
        assert!(rt; fails_at_write(rt.alloc(), fails), "at {fails}");
    }
    Ok(())
}
