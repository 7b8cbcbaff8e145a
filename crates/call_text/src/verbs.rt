//! Calls, read.
ghost use Rattle.std.specs.Prelude.{◌≡◌};
ghost use Rattle.call_text.specs.Reads.{Reads};
ghost use Rattle.call_text.specs.Ranges.{IsNumber, IsCall, IsCallLine};
ghost use Rattle.call_text.specs.CallText.{call_line};
ghost use Rattle.call_text.specs.CallReading.{verb_text, is_verb, verb_of, about, bare_of, call_in, master_in, line_of};

use crate::forks::read_fork;
use crate::parts::{read_address, read_generation, read_path, read_paths, read_worker};
use plain_text::{cut, read_number};
use vocabulary::{Actor, Call};

/// A word that something follows.
#[derive(Clone, Copy, Debug, PartialEq, Eq)]
pub(crate) enum Verb {
    Open,
    Close,
    Fork,
    AwaitReady,
    Quit,
    Kill,
    Census,
    AwaitGone,
    SpawnMaster,
    WritePid,
    MovePid,
    RemovePid,
    Alive,
    Usr1,
    TermMaster,
    Ask,
}

const VERBS: [Verb; 16] = [
    Verb::Open,
    Verb::Close,
    Verb::Fork,
    Verb::AwaitReady,
    Verb::Quit,
    Verb::Kill,
    Verb::Census,
    Verb::AwaitGone,
    Verb::SpawnMaster,
    Verb::WritePid,
    Verb::MovePid,
    Verb::RemovePid,
    Verb::Alive,
    Verb::Usr1,
    Verb::TermMaster,
    Verb::Ask,
];

fn verb_text(verb: Verb) -> &'static str
    ensures { result.now ≡ verb_text verb }
{
    match verb {
        Verb::Open => "open",
        Verb::Close => "close",
        Verb::Fork => "fork",
        Verb::AwaitReady => "await-ready",
        Verb::Quit => "quit",
        Verb::Kill => "kill",
        Verb::Census => "census",
        Verb::AwaitGone => "await-gone",
        Verb::SpawnMaster => "spawn-master",
        Verb::WritePid => "write-pid",
        Verb::MovePid => "move-pid",
        Verb::RemovePid => "remove-pid",
        Verb::Alive => "alive",
        Verb::Usr1 => "usr1",
        Verb::TermMaster => "term-master",
        Verb::Ask => "ask",
    }
}

fn is_verb(verb: Verb, text: &[u8]) -> bool
    ensures { result ≡ is_verb text.now verb }
{
    verb_text(verb).as_bytes() == text
}

/// The verb with a name.
fn read_verb(text: &[u8]) -> Option<Verb>
    ensures { result ≡ verb_of text.now }
{
    VERBS.iter().copied().find(|verb| is_verb(*verb, text))
}

/// A call by its verb and what follows it.
fn read_about(verb: Verb, rest: &[u8]) -> Option<Call>
    ensures { result ≡ about verb rest.now }
{
    match verb {
        Verb::Open => read_address(rest).map(|address| Call::OpenAt(address)),
        Verb::Close => read_address(rest).map(|address| Call::CloseAt(address)),
        Verb::Fork => read_fork(rest),
        Verb::AwaitReady => read_worker(rest).map(|worker| Call::AwaitReady(worker.0, worker.1)),
        Verb::Quit => read_worker(rest).map(|worker| Call::Quit(worker.0, worker.1)),
        Verb::Kill => read_worker(rest).map(|worker| Call::Kill(worker.0, worker.1)),
        Verb::Census => read_generation(rest).map(|generation| Call::Census(generation)),
        Verb::AwaitGone => read_worker(rest).map(|worker| Call::AwaitGone(worker.0, worker.1)),
        Verb::SpawnMaster => read_number(rest).map(|image| Call::SpawnMaster(image)),
        Verb::WritePid => read_path(rest).map(|path| Call::WritePid(path)),
        Verb::MovePid => read_paths(rest).map(|paths| Call::MovePid(paths.0, paths.1)),
        Verb::RemovePid => read_path(rest).map(|path| Call::RemovePid(path)),
        Verb::Alive => read_number(rest).map(|image| Call::Alive(image)),
        Verb::Usr1 => read_worker(rest).map(|worker| Call::Usr1(worker.0, worker.1)),
        Verb::TermMaster => read_number(rest).map(|image| Call::TermMaster(image)),
        Verb::Ask => read_number(rest).map(|question| Call::Ask(question)),
    }
}

/// A call of one word.
fn read_bare(text: &[u8]) -> Option<Call>
    ensures { result ≡ bare_of text.now }
{
    if text == b"adopt".as_slice() {
        return Some(Call::Adopt);
    }
    if text == b"leave".as_slice() {
        return Some(Call::Leave);
    }
    None
}

/// A call without its master.
fn read_order(text: &[u8]) -> Option<Call>
    ensures { result ≡ call_in text.now }
{
    match cut(text, b' ') {
        Some((verb, rest)) => read_about(read_verb(verb)?, rest),
        None => read_bare(text),
    }
}

/// A master: `m` and the number of its image.
pub(crate) fn read_master(text: &[u8]) -> Option<Actor>
    ensures { result ≡ master_in text.now }
{
    let (kind, image) = text.split_first()?;
    if *kind != b'm' {
        return None;
    }
    let image = read_number(image)?;
    Some(Actor(image))
}

fn read_line(text: &[u8]) -> Option<(Actor, Call)>
    ensures { result ≡ line_of text.now }
{
    let (by, call) = cut(text, b' ')?;
    let by = read_master(by)?;
    let call = read_order(call)?;
    Some((by, call))
}

/// Reads a call as `write_call` writes it, without a newline, and no other text. Images and
/// configurations are at most 4,294,967,295, a worker's number is below 1024, the descriptors of a
/// fork, where it names a set of them, are from 3 to 66, addresses and paths are as
/// `Address::read` and `FilePath::read` accept them, or such a path with `.oldbin` behind it. Any
/// bytes may come.
pub fn read_call(text: &[u8]) -> Option<(Actor, Call)>
    ensures exact { result ≡ line_of text.now }
    ensures reads { Reads IsCallLine (λ line. call_line line.0 line.1) text.now result }
{
    read_line(text)
}
