//! Lines that ask a new master for an answer.
ghost use Rattle.std.specs.Prelude.{◌≡◌};
ghost use Rattle.child_programs.specs.Requests.{moment_of, request_of};

use call_text::read_call;
use plain_text::{after_prefix, read_number64};
use vocabulary::{Actor, Call};

/// A call, and the master that is to make it.
#[derive(Clone, Copy, Debug)]
pub struct CallLine {
    pub by: Actor,
    pub call: Call,
}

/// A line that asks for an answer.
#[derive(Clone, Copy, Debug)]
pub enum MasterRequest {
    /// Whether the master is alive.
    IsAlive,
    /// A moment, at which its workers are to beat.
    Tick(u64),
    /// To make a call.
    Make(CallLine),
}

/// The moment of a line `tick NOW`.
fn read_moment(line: &[u8]) -> Option<u64>
    ensures { result ≡ moment_of line.now }
{
    match after_prefix(line, b"tick ") {
        None => None,
        Some(rest) => read_number64(rest),
    }
}

/// Reads the line `alive`, a line `tick NOW`, or a call as `read_call` accepts it.
pub fn read_request(line: &[u8]) -> Option<MasterRequest>
    ensures { result ≡ request_of line.now }
{
    if line == b"alive".as_slice() {
        return Some(MasterRequest::IsAlive);
    }
    if let Some(now) = read_moment(line) {
        return Some(MasterRequest::Tick(now));
    }
    let (by, call) = read_call(line)?;
    Some(MasterRequest::Make(CallLine { by, call }))
}
