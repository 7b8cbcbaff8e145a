//! Lines that are said to a worker.
ghost use Rattle.std.specs.Prelude.{◌≡◌, option_map};
ghost use Rattle.call_text.specs.Reading.{generation_of, address_of};
ghost use Rattle.call_text.specs.Reads.{Reads};
ghost use Rattle.child_programs.specs.WorkerLines.{named_of, bare_of, about, line_of, IsWorkerLine, worker_line_text};

use listener_set::{Address, Generation, WORKER_LIMIT};
use plain_text::{cut, number_within, read_number, read_number64};

/// A line that is said to a worker.
#[derive(Clone, Copy, Debug, PartialEq, Eq)]
pub enum WorkerLine {
    /// What the worker is: its generation, its number, and the number of its start.
    Named(Generation, u32, u32),
    /// An address where it is to listen.
    Listener(Address),
    /// It is to get ready.
    Go,
    /// Whether it is there.
    Ping,
    /// A moment.
    Tick(u64),
    /// It is to open its logs anew.
    Usr1,
    /// An address where it is to listen no more.
    Close(Address),
    /// It is to end.
    Quit,
}

fn read_generation(text: &[u8]) -> Option<Generation>
    ensures { result ≡ generation_of text.now }
{
    let (image, config) = cut(text, b'.')?;
    let image = read_number(image)?;
    let config = read_number(config)?;
    Some(Generation { image, config })
}

/// What a worker is told that it is.
fn read_named(text: &[u8]) -> Option<WorkerLine>
    ensures { result ≡ named_of text.now }
{
    let (generation, rest) = cut(text, b' ')?;
    let generation = read_generation(generation)?;
    let (nr, start) = cut(rest, b' ')?;
    let nr = number_within(nr, 0, WORKER_LIMIT - 1)?;
    let start = read_number(start)?;
    Some(WorkerLine::Named(generation, nr, start))
}

fn read_address(text: &[u8]) -> Option<Address>
    ensures { result ≡ address_of text.now }
{
    Address::read(text).ok()
}

/// A line of one word.
fn read_bare(text: &[u8]) -> Option<WorkerLine>
    ensures { result ≡ bare_of text.now }
{
    if text == b"go".as_slice() {
        return Some(WorkerLine::Go);
    }
    if text == b"ping".as_slice() {
        return Some(WorkerLine::Ping);
    }
    if text == b"usr1".as_slice() {
        return Some(WorkerLine::Usr1);
    }
    if text == b"quit".as_slice() {
        return Some(WorkerLine::Quit);
    }
    None
}

/// A line of a word and what it is about.
fn read_about(word: &[u8], rest: &[u8]) -> Option<WorkerLine>
    ensures { result ≡ about word.now rest.now }
{
    if word == b"worker".as_slice() {
        return read_named(rest);
    }
    if word == b"listener".as_slice() {
        return read_address(rest).map(|address| WorkerLine::Listener(address));
    }
    if word == b"tick".as_slice() {
        return read_number64(rest).map(|now| WorkerLine::Tick(now));
    }
    if word == b"close".as_slice() {
        return read_address(rest).map(|address| WorkerLine::Close(address));
    }
    None
}

fn read_line(text: &[u8]) -> Option<WorkerLine>
    ensures { result ≡ line_of text.now }
{
    match cut(text, b' ') {
        Some((word, rest)) => read_about(word, rest),
        None => read_bare(text),
    }
}

/// Reads a line that an edge says to a worker, without its newline, and no other text: `worker I.C NR START`,
/// `listener ADDRESS`, `go`, `ping`, `tick NOW`, `usr1`, `close ADDRESS`, `quit`. I, C and START are at most
/// 4,294,967,295, NR is below 1024, NOW at most 18,446,744,073,709,551,615, all without leading zeros; ADDRESS is as
/// `Address::read` accepts it. Any bytes may come.
pub fn read_worker_line(text: &[u8]) -> Option<WorkerLine>
    ensures exact { result ≡ line_of text.now }
    ensures reads { Reads IsWorkerLine worker_line_text text.now result }
{
    read_line(text)
}
