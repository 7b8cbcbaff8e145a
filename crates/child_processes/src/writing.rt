//! Lines and files, written.
use crate::patience::Waits;
use listener_set::FilePath;
use plain_text::{LINE_BYTES, Line};
use std::io::{ErrorKind, Write};
use std::rt::Files;
use std::{fs, io, str};

/// Puts a line and its newline in one piece.
pub(crate) fn whole_line<'a>(
    room: &'a mut [u8; LINE_BYTES + 1],
    line: &[u8],
) -> io::Result<&'a [u8]> {
    if line.len() > LINE_BYTES {
        return Err(io::Error::from(ErrorKind::InvalidInput));
    }
    room[..line.len()].copy_from_slice(line);
    room[line.len()] = b'\n';
    Ok(&room[..line.len() + 1])
}

/// Writes a whole line to a pipe that does not wait. Where there is no room for too long, it is refused with `WouldBlock`;
/// a part of the line may have been written then.
pub(crate) fn write_in_time<T: Write, W: Waits>(
    to: &mut T,
    line: &[u8],
    wait: &mut W,
) -> io::Result<()> {
    let mut left = line;
    for _ in 0..u64::MAX {
        if left.is_empty() {
            return Ok(());
        }
        match to.write(left) {
            Ok(0) => return Err(io::Error::from(ErrorKind::WriteZero)),
            Ok(count) => left = left.get(count..).unwrap_or(&[]),
            Err(error) if error.kind() == ErrorKind::Interrupted => {}
            Err(error) if error.kind() == ErrorKind::WouldBlock => {
                if !wait.lasts() {
                    return Err(error);
                }
            }
            Err(error) => return Err(error),
        }
    }
    Err(io::Error::from(ErrorKind::Other))
}

/// A path as text.
fn text_of(bytes: &[u8]) -> io::Result<&str> {
    match str::from_utf8(bytes) {
        Ok(text) => Ok(text),
        Err(_) => Err(io::Error::from(ErrorKind::InvalidInput)),
    }
}

/// The name of the file that is written beside `path` and renamed to it.
fn beside(path: &FilePath) -> Line {
    let mut name = Line::new();
    name.put(path.bytes());
    name.put(b".new");
    name
}

/// Writes a file beside its place and renames it, so that nobody reads a part of it.
pub(crate) fn write_whole<R: Files>(rt: &R, path: &FilePath, contents: &[u8]) -> io::Result<()> {
    let beside = beside(path);
    let beside = text_of(beside.bytes())?;
    let mut file = fs::File::create(rt, beside)?;
    file.write_all(contents)?;
    fs::rename(rt, beside, text_of(path.bytes())?)
}

/// Removes what a master that was killed while it wrote a file left beside it, if anything.
fn remove_unfinished<R: Files>(rt: &R, path: &FilePath) {
    if let Ok(name) = text_of(beside(path).bytes()) {
        let _ = fs::remove_file(rt, name);
    }
}

/// Renames a file. What was left of an unfinished one beside the new name goes.
pub(crate) fn rename<R: Files>(rt: &R, from: &FilePath, to: &FilePath) -> io::Result<()> {
    remove_unfinished(rt, to);
    fs::rename(rt, text_of(from.bytes())?, text_of(to.bytes())?)
}

/// Removes a file, and what was left of an unfinished one beside it.
pub(crate) fn remove<R: Files>(rt: &R, path: &FilePath) -> io::Result<()> {
    remove_unfinished(rt, path);
    fs::remove_file(rt, text_of(path.bytes())?)
}
