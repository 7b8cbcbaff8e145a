//! Lines that are said to children.
ghost use Rattle.std.specs.Prelude.{◌≡◌, ◌≤◌, ◌++◌, ◌∷◌, [], codes, length};
ghost use Rattle.std.specs.Fmt.{decimal};
ghost use Rattle.child_family.specs.Lines.{worker_line, listener_line, close_line, tick_line, beat_start, pid_text};

use listener_set::{Address, Generation};
use plain_text::{Line, after_prefix, read_number};

/// What a worker is told that it is.
pub fn worker_line(generation: Generation, nr: u32, start: u32) -> Line
    ensures { result ≡ worker_line generation nr start }
{
    let mut line = Line::new();
    line.put(b"worker ");
    line.put_number(u64::from(generation.image));
    line.put(b".");
    line.put_number(u64::from(generation.config));
    line.put(b" ");
    line.put_number(u64::from(nr));
    line.put(b" ");
    line.put_number(u64::from(start));
    line
}

/// A verb and an address.
fn about(verb: &[u8], address: &Address) -> Line
    requires { length verb.now ≤ 100 }
    ensures { result ≡ verb.now ++ address.now }
{
    let mut line = Line::new();
    line.put(verb);
    line.put(address.bytes());
    line
}

/// What a worker is told of an address where it listens.
pub fn listener_line(address: &Address) -> Line
    ensures { result ≡ listener_line address.now }
{
    about(b"listener ", address)
}

/// What a worker is told of an address where it listens no more.
pub fn close_line(address: &Address) -> Line
    ensures { result ≡ close_line address.now }
{
    about(b"close ", address)
}

/// What a worker is told of a moment.
pub fn tick_line(now: u64) -> Line
    ensures { result ≡ tick_line now }
{
    let mut line = Line::new();
    line.put(b"tick ");
    line.put_number(now);
    line
}

/// What stands in a pid file.
pub fn pid_text(pid: u32) -> Line
    ensures { result ≡ pid_text pid }
{
    let mut line = Line::new();
    line.put_number(u64::from(pid));
    line.put(b"\n");
    line
}

/// What stands before the start in a beat at a moment.
fn beat_front(now: u64) -> Line
    ensures { result ≡ codes "beat " ++ decimal now ++ 32 ∷ [] }
{
    let mut line = Line::new();
    line.put(b"beat ");
    line.put_number(now);
    line.put(b" ");
    line
}

/// The start that a beat at a moment names.
pub fn beat_start(now: u64, said: &[u8]) -> Option<u32>
    ensures { result ≡ beat_start now said.now }
{
    let front = beat_front(now);
    match after_prefix(said, front.bytes()) {
        None => None,
        Some(rest) => read_number(rest),
    }
}
