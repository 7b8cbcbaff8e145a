//! The lines of readers.
use child_family::Heard;
use child_processes::LineReader;
use plain_text::Line;
use std::alloc::{AllocError, Global};
use std::io;
use std::io::{ErrorKind, Read};
use std::test::Fail;

/// So many letters, and then a text.
fn letters(alloc: Global, count: usize, text: &[u8]) -> Result<Vec<u8>, AllocError> {
    let mut bytes = Vec::new(alloc);
    for _ in 0..count {
        bytes.push(b'a')?;
    }
    bytes.extend_from_slice(text)?;
    Ok(bytes)
}

/// Whether this is what is heard next.
fn is_heard(reader: &mut LineReader<&[u8]>, line: &mut Line, heard: Heard) -> bool {
    match reader.hear(line) {
        Ok(found) => found == heard,
        Err(_) => false,
    }
}

#[test]
fn hears_the_line_after_one_that_is_too_long(rt: HostRuntime) -> Result<(), Fail> {
    let mut text = Vec::from_slice(rt.alloc(), b"first\n")?;
    text.append(&mut letters(rt.alloc(), 5000, b"\nlast\nrest")?)?;
    let mut reader = LineReader::new(text.as_slice());
    let mut line = Line::new();
    assert!(rt; is_heard(&mut reader, &mut line, Heard::Line));
    assert!(rt; line.bytes() == b"first".as_slice());
    assert!(rt; is_heard(&mut reader, &mut line, Heard::TooLong));
    assert!(rt; is_heard(&mut reader, &mut line, Heard::Line));
    assert!(rt; line.bytes() == b"last".as_slice());
    assert!(rt; is_heard(&mut reader, &mut line, Heard::Ended));
    Ok(())
}

/// A reader that gives a byte at a time. One of its reads, counted from 0, fails.
#[derive(Drop)]
struct Faulty<'a> {
    bytes: &'a [u8],
    reads: usize,
    fails: usize,
    kind: ErrorKind,
}

impl Read for Faulty<'_> {
    fn read(&mut self, buf: &mut [u8]) -> io::Result<usize> {
        let number = self.reads;
        self.reads = number.saturating_add(1);
        if number == self.fails {
            return Err(io::Error::from(self.kind));
        }
        let Some((byte, rest)) = self.bytes.split_first() else {
            return Ok(0);
        };
        let Some(place) = buf.first_mut() else {
            return Ok(0);
        };
        *place = *byte;
        self.bytes = rest;
        Ok(1)
    }
}

/// All lines of an input, with a bar behind each, a plus for each that is too long, and how many reads failed.
fn lines_of<R: Read + Drop>(alloc: Global, input: R) -> Result<(Vec<u8>, u32), AllocError> {
    let mut reader = LineReader::new(input);
    let mut line = Line::new();
    let mut text = Vec::new(alloc);
    let mut faults = 0u32;
    for _ in 0..100 {
        match reader.next_line(&mut line) {
            Ok(Heard::Line) => {
                text.extend_from_slice(line.bytes())?;
                text.push(b'|')?;
            }
            Ok(Heard::TooLong) => text.push(b'+')?,
            Ok(Heard::Ended) => return Ok((text, faults)),
            Err(_) => faults = faults.saturating_add(1),
        }
    }
    Ok((text, faults))
}

/// Whether all lines are heard and so many reads fail, where the read of a number fails in a way.
fn are_all_heard(
    alloc: Global,
    fails: usize,
    kind: ErrorKind,
    faults: u32,
) -> Result<bool, AllocError> {
    let input = Faulty {
        bytes: b"one\ntwo\n\nlast",
        reads: 0,
        fails,
        kind,
    };
    let (text, found) = lines_of(alloc, input)?;
    Ok(text.as_slice() == b"one|two||last|".as_slice() && found == faults)
}

#[test]
fn no_failed_read_loses_a_byte(rt: HostRuntime) -> Result<(), Fail> {
    for fails in 0..14 {
        assert!(rt; are_all_heard(rt.alloc(), fails, ErrorKind::BrokenPipe, 1)?);
        assert!(rt; are_all_heard(rt.alloc(), fails, ErrorKind::Interrupted, 0)?);
    }
    Ok(())
}

#[test]
fn gives_the_last_line_without_a_newline(rt: HostRuntime) -> Result<(), Fail> {
    let rows: [(&[u8], &[u8]); 5] = [
        (b"", b""),
        (b"\n", b"|"),
        (b"a", b"a|"),
        (b"a\n", b"a|"),
        (b"a\nb", b"a|b|"),
    ];
    for (input, wanted) in rows {
        let (text, faults) = lines_of(rt.alloc(), input)?;
        assert!(rt; text.as_slice() == wanted);
        assert!(rt; faults == 0);
    }
    Ok(())
}

/// All lines of so many letters and a text.
fn lines_behind(alloc: Global, count: usize, text: &[u8]) -> Result<Vec<u8>, AllocError> {
    let input = letters(alloc, count, text)?;
    let (lines, _) = lines_of(alloc, input.as_slice())?;
    Ok(lines)
}

#[test]
fn a_line_may_have_4096_bytes(rt: HostRuntime) -> Result<(), Fail> {
    for end in [b"".as_slice(), b"\n"] {
        assert_eq!(rt; lines_behind(rt.alloc(), 4096, end)?.len(), 4097);
    }
    Ok(())
}

#[test]
fn a_line_may_not_have_more_bytes(rt: HostRuntime) -> Result<(), Fail> {
    for (count, end, wanted) in [
        (4097, b"".as_slice(), b"+".as_slice()),
        (4097, b"\n", b"+"),
        (9000, b"", b"+"),
        (9000, b"\nb", b"+b|"),
    ] {
        let lines = lines_behind(rt.alloc(), count, end)?;
        assert!(rt; lines.as_slice() == wanted, "{count} letters");
    }
    Ok(())
}
