//! The texts of handovers.
use handover_text::{Handover, handovers_have_one_text, read, write};
use listener_set::{Address, FilePath, Generation, ListenerSet};
use master_listeners::Listeners;
use std::alloc::{AllocError, Global};
use std::process::Abort;
use std::test::Fail;
use vocabulary::HandoverRefusal::{self, Cut, Line, OutOfOrder, Trailing};
use worker_groups::{Group, Groups};

/// What the old master of an upgrade hands over, line by line.
const TOLD: [&str; 8] = [
    "handover 2",
    "old-pid 100",
    "generation 2 2",
    "listener 3 0.0.0.0:8080",
    "group 2",
    "want 0.0.0.0:8080",
    "pid-file /run/a.pid",
    "end",
];

/// The same in version 1.
const TOLD_BEFORE: [&str; 8] = [
    "handover 1",
    "old-pid 100",
    "generation 2 2",
    "listener 3 0.0.0.0:8080",
    "want 0.0.0.0:8080",
    "workers 2",
    "pid-file /run/a.pid",
    "end",
];

fn put(text: &mut Vec<u8>, line: &str) -> Result<(), AllocError> {
    text.extend_from_slice(line.as_bytes())?;
    text.extend_from_slice(b"\n")
}

/// The text of lines.
fn whole(alloc: Global, lines: &[&str]) -> Result<Vec<u8>, AllocError> {
    let mut text = Vec::new(alloc);
    for line in lines {
        put(&mut text, line)?;
    }
    Ok(text)
}

/// What the old master of an upgrade hands over.
fn upgrade(rt: &impl Abort) -> Handover {
    let mut want = ListenerSet::new();
    assert!(rt; want.add(&Address::plain()).is_ok());
    assert!(rt; want.len() == 1);
    let listeners = Listeners::from_set(&want);
    Handover {
        old_pid: 100,
        generation: Generation {
            image: 2,
            config: 2,
        },
        listeners,
        want,
        groups: Groups::one(1, 2),
        pid_file: Some(FilePath::read(b"/run/a.pid").expect(rt, "a path")),
    }
}

/// What is read of the text of lines.
fn told(alloc: Global, lines: &[&str]) -> Result<Handover, Fail> {
    let text = whole(alloc, lines)?;
    Ok(read(text.as_slice())?)
}

/// Whether a handover is written as these lines.
fn is_written(alloc: Global, handover: &Handover, lines: &[&str]) -> Result<bool, AllocError> {
    Ok(write(alloc, handover)?.as_slice() == whole(alloc, lines)?.as_slice())
}

#[test]
fn a_handover_is_written_line_by_line(rt: HostRuntime) -> Result<(), Fail> {
    handovers_have_one_text();
    assert!(rt; is_written(rt.alloc(), &upgrade(&rt), &TOLD)?);
    Ok(())
}

/// Whether the group at a place has one address and so many workers.
fn is_group(told: &Handover, place: usize, workers: u32) -> bool {
    let group = Group {
        addresses: 1,
        workers,
    };
    told.groups.as_slice().get(place) == Some(&group)
}

/// What is read of version 1 is of one group, and is written as version 2.
#[test]
fn a_handover_of_version_1_is_read_as_one_group(rt: HostRuntime) -> Result<(), Fail> {
    let told = told(rt.alloc(), &TOLD_BEFORE)?;
    assert!(rt; told.groups.as_slice().len() == 1);
    assert!(rt; is_group(&told, 0, 2));
    assert!(rt; is_written(rt.alloc(), &told, &TOLD)?);
    Ok(())
}

/// What stands before the listeners of texts that are refused.
const HEAD: &str = "old-pid 1\ngeneration 0 0\nlistener 3 /a\n";

/// What follows the first line and the head, and how the text is refused.
const REFUSED: [(&str, Option<HandoverRefusal>); 15] = [
    ("listener 3 /b\n", Some(OutOfOrder(5))),
    ("group 02\n", Some(Line(5))),
    ("group 1025\n", Some(Line(5))),
    ("group 1024\nwant /b\ngroup 1\n", Some(Line(7))),
    ("want /b\n", Some(Line(5))),
    ("workers 1\n", Some(Line(5))),
    ("end\n", Some(Line(5))),
    ("group 1\ngroup 1\n", Some(Line(6))),
    ("group 1\nend\n", Some(Line(6))),
    ("group 1\nwant /b\nworkers 1\n", Some(Line(7))),
    ("group 1\nwant /b\ngroup 0\nwant /b\n", Some(Line(8))),
    ("group 1\nwant /b\nlistener 4 /b\n", Some(Line(7))),
    ("group 0\nwant /b\nend\n", None),
    ("group 0\nwant /b\ngroup 0\nwant /c\nwant /d\nend\n", None),
    ("group 0\nwant /b\nend\n\n", Some(Trailing)),
];

fn begun(alloc: Global, rest: &str) -> Result<Vec<u8>, AllocError> {
    let mut text = whole(alloc, &["handover 2"])?;
    text.extend_from_slice(HEAD.as_bytes())?;
    text.extend_from_slice(rest.as_bytes())?;
    Ok(text)
}

#[test]
fn a_handover_is_refused_by_its_first_faulty_line(rt: HostRuntime) -> Result<(), Fail> {
    for (rest, refusal) in REFUSED {
        let text = begun(rt.alloc(), rest)?;
        assert_eq!(rt; read(text.as_slice()).err(), refusal, "{rest}");
    }
    Ok(())
}

/// Puts the line of an address with this port behind a text.
fn put_want(text: &mut Vec<u8>, port: u32) -> Result<(), AllocError> {
    let line = format!(in *text.allocator(); "want 0.0.0.0:{port}")?;
    put(text, line.as_str())
}

/// A text that ends with a group of 64 addresses.
fn full_group(alloc: Global) -> Result<Vec<u8>, AllocError> {
    let mut text = begun(alloc, "group 0\n")?;
    for port in 1..65_u32 {
        put_want(&mut text, port)?;
    }
    Ok(text)
}

/// How a text is refused once a line is put behind it.
fn refused_with(text: &Vec<u8>, line: &str) -> Result<Option<HandoverRefusal>, AllocError> {
    let mut longer = text.clone()?;
    put(&mut longer, line)?;
    Ok(read(longer.as_slice()).err())
}

/// The line that passes a limit is refused: 64 addresses are the most. The line of a group names no address.
#[test]
fn a_handover_is_refused_by_the_line_of_one_address_too_many(rt: HostRuntime) -> Result<(), Fail> {
    let text = full_group(rt.alloc())?;
    for (line, refusal) in [
        ("group 0", Some(Cut)),
        ("want /b", Some(Line(70))),
        ("group 1025", Some(Line(70))),
        ("end", None),
    ] {
        assert_eq!(rt; refused_with(&text, line)?, refusal, "{line}");
    }
    Ok(())
}
