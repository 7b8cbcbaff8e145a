//! Standard error, where several say something, and an output whose refused words are explained there.
use explanations::{tell_declined, tell_refusals};
use std::cell::RefCell;
use std::io;
use std::io::{ErrorKind, Write};
use std::rt::Files;

/// Standard error. Nothing is written while another writes there.
#[derive(Drop)]
pub struct Shared<'a, E: Write> {
    errors: &'a RefCell<E>,
}

impl<'a, E: Write> Shared<'a, E> {
    pub fn new(errors: &'a RefCell<E>) -> Shared<'a, E> {
        Shared { errors }
    }
}

impl<E: Write> Write for Shared<'_, E> {
    fn write(&mut self, bytes: &[u8]) -> io::Result<usize> {
        match self.errors.try_borrow_mut() {
            Ok(mut errors) => errors.write(bytes),
            Err(_) => Err(io::Error::from(ErrorKind::WouldBlock)),
        }
    }

    fn flush(&mut self) -> io::Result<()> {
        match self.errors.try_borrow_mut() {
            Ok(mut errors) => errors.flush(),
            Err(_) => Err(io::Error::from(ErrorKind::WouldBlock)),
        }
    }
}

/// The file of the next configuration, and the option that names it.
#[derive(Clone, Copy)]
pub struct NextName<'a> {
    pub option: &'a str,
    /// Without a file the defaults hold.
    pub path: Option<&'a str>,
}

/// An output of blocks, each of which comes in one write. Where that is wanted, it is said after a block why its word was
/// refused: where the next configuration is wrong, and what the codes mean.
#[derive(Drop)]
pub struct Explained<'a, R: AllocGlobal + Files, O: Write, E: Write> {
    pub rt: &'a R,
    pub next: NextName<'a>,
    pub output: &'a mut O,
    pub errors: E,
    pub is_wanted: bool,
}

impl<R: AllocGlobal + Files, O: Write, E: Write> Write for Explained<'_, R, O, E> {
    fn write(&mut self, bytes: &[u8]) -> io::Result<usize> {
        let count = self.output.write(bytes)?;
        if self.is_wanted {
            let NextName { option, path } = self.next;
            tell_declined(self.rt, option, path, &bytes[..count], &mut self.errors);
            tell_refusals(&bytes[..count], &mut self.errors);
        }
        Ok(count)
    }

    fn flush(&mut self) -> io::Result<()> {
        self.output.flush()
    }
}
