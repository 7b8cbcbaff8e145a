//! What was read and belongs to no line that was told yet, in a buffer of fixed size.
ghost use Rattle.std.specs.Prelude.{◌≡◌, ◌≢◌, ◌≤◌, ◌<◌, ◌++◌, ℕ, List, [], length, drop, option_map, IfSome, IsNone, IfOk, OnErr};
ghost use Rattle.std.specs.Io.KnownBytes.{Consumes, Keeps, IsAtEnd};
ghost use Rattle.child_family.specs.declared.role.Heard.TheVariants.{Ended};
ghost use Rattle.child_family.specs.Told.{heard_of};
ghost use Rattle.child_processes.specs.Unheard.{nothing, newline_in, behind_drop, dropped, told_first, left_first, told_last};

use child_family::Heard;
use plain_text::{LINE_BYTES, Line};
use std::io;
use std::io::Read;
use std::marker::Model;

/// One byte more than a line, for its newline.
const ROOM: usize = LINE_BYTES + 1;

/// The bytes that were read, and told by no line yet.
#[derive(Drop)]
pub(crate) struct LineBuffer {
    bytes: [u8; ROOM],
    filled: usize,
    /// Whether what comes up to the next newline belongs to a line that is dropped.
    drops: bool,
}

impl Model for LineBuffer {
    ghost use Rattle.std.specs.Prelude.{◌≤◌, take};
    ghost use Rattle.child_processes.specs.Unheard.{Unheard};

    ghost Value = { Unheard };

    ghost view = { λ b. record { bytes = take b.filled b.bytes; drops = b.drops } };

    ghost invariant = { λ b. b.filled ≤ 4097 };
}

/// Where the first newline is.
fn newline_in(bytes: &[u8]) -> Option<usize>
    ensures first { result ≡ newline_in bytes.now }
    ensures within { IfSome result (λ at. at < length bytes.now) }
{
    bytes.iter().position(|byte| *byte == b'\n')
}

/// Makes a line this text.
fn keep(line: &mut Line, text: &[u8])
    requires { length text.now ≤ 4096 }
    ensures { line.new ≡ text.now }
{
    line.clear();
    line.put(text);
}

impl LineBuffer {
    /// Nothing was read yet.
    pub(crate) fn new() -> LineBuffer
        ensures { result ≡ nothing }
    {
        LineBuffer {
            bytes: [0; ROOM],
            filled: 0,
            drops: false,
        }
    }

    /// What can be told without reading on. Where that is nothing, there is room for a byte more.
    pub(crate) fn take_line(&mut self, line: &mut Line) -> Option<Heard>
        ensures told { option_map (λ h. heard_of h line.new) result ≡ told_first (dropped self.old) }
        ensures left { self.new ≡ left_first (dropped self.old) }
        ensures room { IsNone result → length self.new.bytes < 4097 }
        ensures whole { IfSome result (λ h. h ≢ Ended) }
        ensures fits { length self.old.bytes ≤ 4097 }
    {
        if self.drops {
            self.drop_rest();
        }
        match newline_in(&self.bytes[..self.filled]) {
            Some(at) => {
                keep(line, &self.bytes[..at]);
                self.remove(at + 1);
                Some(Heard::Line)
            }
            None if self.filled >= ROOM => {
                self.filled = 0;
                self.drops = true;
                Some(Heard::TooLong)
            }
            None => None,
        }
    }

    /// What stands behind the last newline, as a line; `Ended` where that is nothing.
    pub(crate) fn take_rest(&mut self, line: &mut Line) -> Heard
        requires { length self.old.bytes ≤ 4096 }
        ensures told { heard_of result line.new ≡ told_last self.old.bytes }
        ensures left { self.new ≡ record self.old { bytes = [] } }
    {
        if self.filled == 0 {
            return Heard::Ended;
        }
        keep(line, &self.bytes[..self.filled]);
        self.filled = 0;
        Heard::Line
    }

    /// Reads once, as much as there is room for; 0 at the end. A read that fails changes nothing.
    pub(crate) fn fill<R: Read>(&mut self, reader: &mut R) -> io::Result<usize>
        requires { length self.old.bytes < 4097 }
        ensures read { IfOk result (λ n. (piece : List ℕ) × (length piece ≡ n) × (self.new ≡ record self.old { bytes = self.old.bytes ++ piece })
            × Consumes (R.remaining reader.old) (R.remaining reader.new) piece) }
        ensures end { IfOk result (λ n. n ≡ 0 → IsAtEnd (R.remaining reader.new)) }
        ensures failed { OnErr result ((self.new ≡ self.old) × Keeps (R.remaining reader.old) (R.remaining reader.new)) }
    {
        let count = reader.read(&mut self.bytes[self.filled..])?;
        self.filled += count;
        Ok(count)
    }

    /// Drops what belongs to a line that is too long.
    fn drop_rest(&mut self)
        ensures { self.new ≡ behind_drop self.old.bytes (newline_in self.old.bytes) }
    {
        match newline_in(&self.bytes[..self.filled]) {
            Some(at) => {
                self.remove(at + 1);
                self.drops = false;
            }
            None => {
                self.filled = 0;
                self.drops = true;
            }
        }
    }

    /// Removes so many bytes at the front.
    fn remove(&mut self, count: usize)
        requires { count ≤ length self.old.bytes }
        ensures { self.new ≡ record self.old { bytes = drop count self.old.bytes } }
    {
        self.bytes.copy_within(count..self.filled, 0);
        self.filled -= count;
    }
}
