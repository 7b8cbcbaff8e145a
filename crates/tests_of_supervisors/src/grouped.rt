//! A master whose workers are in two groups: what it writes, read back and held against a modelled kernel.
use crate::setup::{Always, are_certified};
use child_recorder::Recorded;
use listener_set::{Address, ListenerSet};
use log::sink::Discard;
use master_on_children::{Operator, SupervisorStart, supervise_on};
use std::alloc::{AllocError, Global};
use std::test::Fail;
use transcript::{read_transcripts, write_transcript};
use vocabulary::{Outcome, Settings, Side};
use word_runner::{Block, Body};
use worker_groups::{Group, Groups};

/// Settings with an address for each of two groups, which have one worker each.
fn two_groups() -> Result<Settings, Fail> {
    let mut listeners = ListenerSet::new();
    listeners.add(&Address::plain())?;
    listeners.add(&Address::read(b"0.0.0.0:9090")?)?;
    let mut groups = Groups::one(1, 1);
    groups.add(Group {
        addresses: 1,
        workers: 1,
    })?;
    Ok(Settings {
        listeners,
        workers: 2,
        groups,
        ..Settings::plain()
    })
}

/// What is written over children that obey, where a reload comes.
fn reloaded(alloc: Global, settings: Settings) -> Vec<u8> {
    let start = SupervisorStart { settings, pid: 7 };
    let mut next = Always { settings };
    let mut output = Vec::new(alloc);
    let family = Recorded::new(alloc, None);
    let input = b"HUP\nQUIT\n".as_slice();
    let log = Discard;
    let operator = Operator { input, log };
    let _ = supervise_on(alloc, family, &start, &mut next, operator, &mut output);
    output
}

/// The text of blocks, one behind the other.
fn text_of(alloc: Global, blocks: &[Block]) -> Result<Vec<u8>, AllocError> {
    let mut text = Vec::new(alloc);
    for block in blocks {
        text.extend_from_slice(write_transcript(alloc, block)?.as_slice())?;
    }
    Ok(text)
}

/// Whether a text is that of the blocks which are read of it.
fn is_read_back(alloc: Global, text: &[u8]) -> Result<bool, Fail> {
    let blocks = read_transcripts(alloc, text)?;
    Ok(text_of(alloc, &blocks)?.as_slice() == text)
}

/// Whether a modelled kernel could have given the blocks of a text to a master of these settings.
fn is_certified(alloc: Global, settings: &Settings, text: &[u8]) -> Result<bool, Fail> {
    let blocks = read_transcripts(alloc, text)?;
    are_certified(alloc, settings, &blocks)
}

/// A first tick and a reload: each worker gets what its group has.
const A_RELOAD: &[u8] = b"word tick 0\n\
    1 m1 fork 1.1 0 fds 3 : forked\n\
    2 m1 fork 1.1 1 fds 4 : forked\n\
    3 m1 await-ready 1.1 0 : ready\n\
    4 m1 await-ready 1.1 1 : ready\n\
    5 m1 census 1.1 : counted 0-1\n\
    done cause none pid no-file\n\
    word HUP\n\
    1 m1 fork 1.2 0 fds 3 : forked\n\
    2 m1 fork 1.2 1 fds 4 : forked\n\
    3 m1 await-ready 1.2 0 : ready\n\
    4 m1 await-ready 1.2 1 : ready\n\
    5 m1 census 1.2 : counted 0-1\n\
    6 m1 quit 1.1 1 : ok\n\
    7 m1 quit 1.1 0 : ok\n\
    8 m1 census 1.2 : counted 0-1\n\
    done cause none pid no-file\n";

#[test]
fn a_reload_of_two_groups_is_read_back(rt: HostRuntime) -> Result<(), Fail> {
    let output = reloaded(rt.alloc(), two_groups()?);
    assert!(rt; output.starts_with(A_RELOAD));
    assert!(rt; is_read_back(rt.alloc(), output.as_slice())?);
    Ok(())
}

#[test]
fn a_reload_of_two_groups_is_certified(rt: HostRuntime) -> Result<(), Fail> {
    let settings = two_groups()?;
    let output = reloaded(rt.alloc(), settings);
    assert!(rt; is_certified(rt.alloc(), &settings, output.as_slice())?);
    assert!(rt; !is_certified(rt.alloc(), &Settings::plain(), output.as_slice())?);
    Ok(())
}

/// What a run with two groups came to that lacked a worker of the second.
const A_SHORT_RELOAD: &[u8] = b"word HUP\n\
    1 m1 fork 1.2 1 fds 4-5 : again\n\
    2 m1 census 1.2 : counted 0\n\
    degraded target 0,1 cause 1 pid in-place\n";

/// Whether two calls were made, and this many workers are lacking of each group on the side of the target.
fn lacks(block: &Block, wanted: &[u32]) -> bool {
    let Block::Heard(_, Body::Ran(log, report)) = block else {
        return false;
    };
    let Outcome::Degraded { side, shortfalls } = &report.outcome else {
        return false;
    };
    log.len() == 2 && *side == Side::Target && shortfalls.as_slice() == wanted
}

#[test]
fn what_each_group_lacks_is_read_back(rt: HostRuntime) -> Result<(), Fail> {
    let blocks = read_transcripts(rt.alloc(), A_SHORT_RELOAD)?;
    assert!(rt; blocks.first().is_some_and(|block| lacks(block, &[0, 1])));
    assert!(rt; is_read_back(rt.alloc(), A_SHORT_RELOAD)?);
    Ok(())
}
