//! The lines of a reader.
ghost use Rattle.std.specs.Prelude.{◌≡◌, IfOk, OnErr};
ghost use Rattle.std.specs.Io.KnownBytes.{Keeps};
ghost use Rattle.child_family.specs.Told.{heard_of};
ghost use Rattle.child_family.specs.declared.role.Heard.TheVariants.{Ended};
ghost use Rattle.child_processes.specs.Unheard.{nothing};
ghost use Rattle.child_processes.specs.NextLine.{heard_in, left_in, line_in, rest_in, unheard, IsNext, IsLast};

use crate::buffer::LineBuffer;
use crate::patience::{Forever, Waits};
use child_family::Heard;
use plain_text::Line;
use std::io;
use std::io::{ErrorKind, Read};

/// A reader's lines. It takes no memory. A line of more than 4,096 bytes is told once, and dropped; the next line is
/// heard as ever.
///
/// What is said of lines is said where the bytes of the reader are known.
#[derive(Drop)]
pub struct LineReader<R: Read + Drop> {
    reader: R,
    buffer: LineBuffer,
}

impl<R: Read + Drop> LineReader<R> {
    /// The lines of a reader.
    pub fn new(reader: R) -> LineReader<R>
        ensures reader { result.reader ≡ reader }
        ensures buffer { result.buffer ≡ nothing }
        ensures unheard { Keeps (R.remaining reader) (unheard R.remaining result) }
    {
        LineReader {
            reader,
            buffer: LineBuffer::new(),
        }
    }

    /// The next line of a child, which is waited for. `Ended` at the end; what stands there without a newline is no line,
    /// and is kept. The only refusal is that of a read; no byte is lost by it, and the next call reads on.
    pub fn hear(&mut self, line: &mut Line) -> io::Result<Heard>
        ensures heard { IfOk result (λ h. IsNext heard_in left_in (unheard R.remaining self.old) (unheard R.remaining self.new) (heard_of h line.new)) }
        ensures failed { OnErr result (Keeps (unheard R.remaining self.old) (unheard R.remaining self.new)) }
        ensures rest { IfOk result (λ h. h ≡ Ended → IsLast R.remaining self.new) }
    {
        self.hear_within(line, &mut Forever)
    }

    /// The next line of an input, which is waited for. A last line without a newline is given too, once; `Ended` comes only
    /// at the end, where nothing is left. The only refusal is that of a read; no byte is lost by it, and the next call reads
    /// on.
    pub fn next_line(&mut self, line: &mut Line) -> io::Result<Heard>
        ensures heard { IfOk result (λ h. IsNext line_in rest_in (unheard R.remaining self.old) (unheard R.remaining self.new) (heard_of h line.new)) }
        ensures failed { OnErr result (Keeps (unheard R.remaining self.old) (unheard R.remaining self.new)) }
    {
        match self.hear_within(line, &mut Forever)? {
            Heard::Ended => Ok(self.buffer.take_rest(line)),
            heard => Ok(heard),
        }
    }

    /// The next line of a child, as `hear` gives it, where the wait for it lasts before each read. `TimedOut` where it takes
    /// too long; no byte is lost by that.
    pub(crate) fn hear_within<W: Waits>(
        &mut self,
        line: &mut Line,
        wait: &mut W,
    ) -> io::Result<Heard>
        ensures heard { IfOk result (λ h. IsNext heard_in left_in (unheard R.remaining self.old) (unheard R.remaining self.new) (heard_of h line.new)) }
        ensures failed { OnErr result (Keeps (unheard R.remaining self.old) (unheard R.remaining self.new)) }
        ensures rest { IfOk result (λ h. h ≡ Ended → IsLast R.remaining self.new) }
    {
        for _ in 0..u64::MAX {
            if let Some(heard) = self.buffer.take_line(line) {
                return Ok(heard);
            }
            if !wait.lasts() {
                return Err(io::Error::from(ErrorKind::TimedOut));
            }
            match self.buffer.fill(&mut self.reader) {
                Ok(0) => return Ok(Heard::Ended),
                Ok(_) => {}
                Err(error) if error.kind() == ErrorKind::Interrupted => {}
                Err(error) => return Err(error),
            }
        }
        Err(io::Error::from(ErrorKind::Other))
    }
}
