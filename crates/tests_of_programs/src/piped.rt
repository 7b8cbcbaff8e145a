//! Programs on pipes, over bytes.
use child_programs::{ServedMaster, serve_master, serve_worker};
use child_recorder::Recorded;
use std::alloc::{AllocError, Global};
use std::io;
use std::io::{ErrorKind, Read, Write};

/// An input that gives one byte at a time.
#[derive(Drop)]
pub(crate) struct Slow<'a> {
    left: &'a [u8],
}

impl<'a> Read for Slow<'a> {
    fn read(&mut self, into: &mut [u8]) -> io::Result<usize> {
        let (Some((first, rest)), Some(place)) = (self.left.split_first(), into.first_mut()) else {
            return Ok(0);
        };
        *place = *first;
        self.left = rest;
        Ok(1)
    }
}

/// An output that takes each write as a whole, up to the one that fails.
#[derive(Drop)]
pub(crate) struct Output {
    text: Vec<u8>,
    writes: usize,
    /// How many writes there were at the last flush.
    flushed: usize,
    fails: Option<usize>,
}

impl Output {
    /// The write of that number, counted from 0, fails.
    pub(crate) fn new(alloc: Global, fails: Option<usize>) -> Output {
        Output {
            text: Vec::new(alloc),
            writes: 0,
            flushed: 0,
            fails,
        }
    }

    pub(crate) fn text(&self) -> &[u8] {
        self.text.as_slice()
    }

    /// Whether there was a write for each of so many lines, and nothing is left to be flushed.
    pub(crate) fn has_said(&self, lines: usize) -> bool {
        self.writes == lines && self.flushed == lines
    }
}

impl Write for Output {
    fn write(&mut self, bytes: &[u8]) -> io::Result<usize> {
        if self.fails == Some(self.writes) {
            return Err(io::Error::from(ErrorKind::BrokenPipe));
        }
        self.writes = self.writes.saturating_add(1);
        self.text.extend_from_slice(bytes)?;
        Ok(bytes.len())
    }

    fn flush(&mut self) -> io::Result<()> {
        self.flushed = self.writes;
        Ok(())
    }
}

/// How many lines a text has.
pub(crate) fn lines_in(text: &[u8]) -> usize {
    text.iter().filter(|byte| **byte == b'\n').count()
}

/// The texts one behind another.
pub(crate) fn joined(alloc: Global, texts: &[&[u8]]) -> Result<Vec<u8>, AllocError> {
    let mut whole = Vec::new(alloc);
    for text in texts {
        whole.extend_from_slice(text)?;
    }
    Ok(whole)
}

/// A line of so many bytes.
pub(crate) fn long_line(alloc: Global, bytes: usize) -> Result<Vec<u8>, AllocError> {
    let mut line = Vec::new(alloc);
    for _ in 0..bytes {
        line.push(b'a')?;
    }
    line.push(b'\n')?;
    Ok(line)
}

/// Whether a worker that is told this says that, a line a write, and ends so.
pub(crate) fn worker_says(alloc: Global, told: &[u8], said: &[u8], status: u8) -> bool {
    let mut output = Output::new(alloc, None);
    serve_worker(told, &mut output) == status
        && output.text() == said
        && output.has_said(lines_in(said))
}

/// Whether a worker that is told this, a byte at a time, says that.
pub(crate) fn slow_worker_says(alloc: Global, told: &[u8], said: &[u8]) -> bool {
    let mut output = Output::new(alloc, None);
    serve_worker(Slow { left: told }, &mut output) == 0 && output.text() == said
}

/// A master of process number 200 that is told this.
pub(crate) fn serve_new_master(
    alloc: Global,
    told: &[u8],
    fails: Option<usize>,
    output: &mut Output,
) -> ServedMaster<Recorded> {
    serve_master(alloc, Recorded::new(alloc, fails), 200, told, output)
}

/// Whether a new master that is told this says that, a line a write, and ends so. Gives how many calls its family was
/// told.
pub(crate) fn master_says(alloc: Global, told: &[u8], said: &[u8], status: u8) -> Option<usize> {
    let mut output = Output::new(alloc, None);
    let served = serve_new_master(alloc, told, None, &mut output);
    let is_so = served.status == status && output.text() == said && output.has_said(lines_in(said));
    match served.family {
        Some(family) if is_so => Some(family.calls().len()),
        _ => None,
    }
}
