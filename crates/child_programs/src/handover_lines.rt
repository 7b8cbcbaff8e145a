//! A handover that is read line by line.
ghost use Rattle.std.specs.Prelude.{◌≡◌, [], IfOk, OnOk};
ghost use Rattle.child_programs.specs.Requests.{part_of, with_line, text_after};

use crate::requests::read_request;
use std::alloc::{AllocError, Global};
use std::marker::Model;

/// What is taken at once for the lines of a handover: the longest has 15,235 bytes.
const ROOM: usize = 16_384;

/// What a line is to a handover that is read.
#[derive(Clone, Copy, Debug, PartialEq, Eq)]
pub enum Part {
    /// One of its lines.
    More,
    /// Its last line, `end`.
    Whole,
    /// No line of a handover: it asks for an answer.
    Other,
}

fn part_of(line: &[u8]) -> Part
    ensures { result ≡ part_of line.now }
{
    if line == b"end".as_slice() {
        Part::Whole
    } else if read_request(line).is_some() {
        Part::Other
    } else {
        Part::More
    }
}

/// The lines of a handover so far, each with its newline; contracts see their bytes. Whether they are one is for who has
/// them all to say.
#[derive(Drop)]
pub struct HandoverLines {
    text: Vec<u8>,
}

impl Model for HandoverLines {
    ghost use Rattle.std.specs.Prelude.{ℕ, List};

    ghost Value = { List ℕ };

    ghost view = { λ lines. lines.text.items };
}

impl HandoverLines {
    /// No line yet, with room for the longest handover. The only refusal is want of memory.
    pub fn new(alloc: Global) -> Result<HandoverLines, AllocError>
        ensures { IfOk result (λ lines. lines ≡ []) }
    {
        Ok(HandoverLines {
            text: Vec::with_capacity(alloc, ROOM)?,
        })
    }

    /// The lines so far.
    pub fn text(&self) -> &[u8]
        ensures { result.now ≡ self.now }
    {
        self.text.as_slice()
    }

    /// Takes all lines out.
    pub fn clear(&mut self)
        ensures { self.new ≡ [] }
    {
        self.text.clear();
    }

    fn put(&mut self, line: &[u8]) -> Result<(), AllocError>
        ensures { OnOk result (self.new ≡ with_line self.old line.now) }
    {
        self.text.extend_from_slice(line)?;
        self.text.extend_from_slice(b"\n")
    }

    /// Takes a line, without its newline. One that asks for an answer isn't taken. The only refusal is want of memory.
    pub fn take(&mut self, line: &[u8]) -> Result<Part, AllocError>
        ensures part { IfOk result (λ part. part ≡ part_of line.now) }
        ensures text { OnOk result (self.new ≡ text_after (part_of line.now) self.old line.now) }
    {
        let part = part_of(line);
        match part {
            Part::More | Part::Whole => self.put(line)?,
            Part::Other => {}
        }
        Ok(part)
    }
}
