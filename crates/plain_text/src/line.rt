//! Lines of pipes.
ghost use Rattle.std.specs.Prelude.{◌≡◌, ◌≤◌, ◌+◌, ◌↔◌, ◌++◌, [], length, IsTrue, if◌then◌else◌};
ghost use Rattle.std.specs.Fmt.{decimal};

use crate::sink::Sink;
use itoa::Buffer;
use std::convert::Infallible;
use std::marker::Model;

/// The most bytes of a line: so many go through a pipe in one piece.
pub const LINE_BYTES: usize = 4096;

/// A text of at most 4,096 bytes, in a value of fixed size.
#[derive(Drop)]
pub struct Line {
    bytes: [u8; LINE_BYTES],
    len: usize,
}

impl Model for Line {
    ghost use Rattle.std.specs.Prelude.{◌≤◌, ℕ, List, take};

    ghost Value = { List ℕ };

    ghost view = { λ line. take line.len line.bytes };

    ghost invariant = { λ line. line.len ≤ 4096 };
}

impl Line {
    /// An empty line.
    pub fn new() -> Self
        ensures { result ≡ [] }
    {
        Line {
            bytes: [0; LINE_BYTES],
            len: 0,
        }
    }

    /// The bytes of the line.
    pub fn bytes(&self) -> &[u8]
        ensures text { result.now ≡ self.now }
        ensures fits { length self.now ≤ LINE_BYTES }
    {
        &self.bytes[..self.len]
    }

    /// Whether it can keep no further byte.
    pub fn is_full(&self) -> bool
        ensures { IsTrue result ↔ (length self.now ≡ LINE_BYTES) }
    {
        self.len == LINE_BYTES
    }

    /// Takes all bytes out.
    pub fn clear(&mut self)
        ensures { self.new ≡ [] }
    {
        self.len = 0;
    }

    /// Puts bytes after those of the line. Where the line would pass 4,096 bytes, it stays as it is, and the answer is false.
    pub fn put(&mut self, bytes: &[u8]) -> bool
        ensures fits { IsTrue result ↔ (length self.old + length bytes.now ≤ LINE_BYTES) }
        ensures text { self.new ≡ (if result then self.old ++ bytes.now else self.old) }
    {
        if bytes.len() > LINE_BYTES - self.len {
            return false;
        }
        let end = self.len + bytes.len();
        self.bytes[self.len..end].copy_from_slice(bytes);
        self.len = end;
        true
    }

    /// Puts a number in decimal digits after the bytes of the line, as `put` does.
    pub fn put_number(&mut self, number: u64) -> bool
        ensures fits { IsTrue result ↔ (length self.old + length (decimal number) ≤ LINE_BYTES) }
        ensures text { self.new ≡ (if result then self.old ++ decimal number else self.old) }
        ensures short { length (decimal number) ≤ 20 }
    {
        let mut buffer = Buffer::new();
        self.put(buffer.format(number).as_bytes())
    }
}

/// It refuses nothing, and keeps the first 4,096 bytes of all that was put into it.
impl Sink for Line {
    ghost use Rattle.std.specs.Prelude.{Some};

    type Refusal = Infallible;

    ghost most = { Some 4096 };

    ghost text = { λ line. line };

    fn put(&mut self, bytes: &[u8]) -> Result<(), Infallible> {
        let room = LINE_BYTES - self.len;
        let taken = room.min(bytes.len());
        let _ = Line::put(self, &bytes[..taken]);
        Ok(())
    }
}
