//! Lines of a patterns text.
ghost use Rattle.std.specs.Prelude.{◌≡◌, ◌++◌, ◌∷◌, [], IfOk};
ghost use Rattle.call_text.specs.Reads.{Reads};
ghost use Rattle.pattern_text.specs.LineReading.{event_of, numbered_of, line_of};

use call_text::{fate_text, read_fate, read_name, write_name};
use plain_text::{cut, read_count, write_number};
use std::alloc::AllocError;
use vocabulary::{Fate, Name};

/// A line of a patterns text. Calls are numbered from 1.
#[derive(Clone, Copy, Debug, PartialEq, Eq)]
pub enum PatternLine {
    /// `N exit NAME`: somebody exits before the call with this number.
    Exit(u32, Name),
    /// `N fail FATE`: how the call with this number fails.
    Fail(u32, Fate),
    /// `next`: the pattern of the next word begins.
    Next,
}

impl PatternLine {
    ghost use Rattle.pattern_text.specs.LineText.{line_text, IsLine};

    /// Reads a line without its newline, with single spaces, and no other text. N is from 1 to
    /// 4,294,967,295. Any bytes may come.
    pub fn read(line: &[u8]) -> Option<Self>
        ensures exact { result ≡ line_of line.now }
        ensures reads { Reads IsLine line_text line.now result }
    {
        read_any(line)
    }

    /// Puts the line with its newline behind what was written. The only refusal is want of memory.
    pub fn write(&self, out: &mut Vec<u8>) -> Result<(), AllocError>
        ensures { IfOk result (λ _. out.new.items ≡ out.old.items ++ line_text self.now ++ 10 ∷ []) }
    {
        match self {
            PatternLine::Exit(number, name) => {
                write_number(out, u64::from(*number))?;
                out.extend_from_slice(b" exit ")?;
                write_name(out, name)?;
            }
            PatternLine::Fail(number, fate) => {
                write_number(out, u64::from(*number))?;
                out.extend_from_slice(b" fail ")?;
                out.extend_from_slice(fate_text(*fate).as_bytes())?;
            }
            PatternLine::Next => out.extend_from_slice(b"next")?,
        }
        out.extend_from_slice(b"\n")
    }
}

fn read_event(number: u32, verb: &[u8], what: &[u8]) -> Option<PatternLine>
    ensures { result ≡ event_of number verb.now what.now }
{
    if verb == b"exit".as_slice() {
        let name = read_name(what)?;
        return Some(PatternLine::Exit(number, name));
    }
    if verb == b"fail".as_slice() {
        let fate = read_fate(what)?;
        return Some(PatternLine::Fail(number, fate));
    }
    None
}

fn read_numbered(line: &[u8]) -> Option<PatternLine>
    ensures { result ≡ numbered_of line.now }
{
    let (number, rest) = cut(line, b' ')?;
    let number = read_count(number)?;
    let (verb, what) = cut(rest, b' ')?;
    read_event(number, verb, what)
}

fn read_any(line: &[u8]) -> Option<PatternLine>
    ensures { result ≡ line_of line.now }
{
    if line == b"next".as_slice() {
        return Some(PatternLine::Next);
    }
    read_numbered(line)
}
