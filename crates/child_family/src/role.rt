//! What a child is started as, and what comes back.
use listener_set::Generation;

/// What a child is started as.
#[derive(Clone, Copy, Debug, PartialEq, Eq)]
pub enum Role {
    /// A worker of the generation with that number, the `start`-th start of its master's workers, counted from 1.
    Worker {
        generation: Generation,
        nr: u32,
        start: u32,
    },
    /// A master of the image, that takes over.
    Master {
        image: u32,
    },
}

/// Why a child was not started.
#[derive(Clone, Copy, Debug, PartialEq, Eq)]
pub enum StartFault {
    /// No process can be started now.
    Again,
    /// There is no memory for it.
    NoMemory,
    /// Its program is not there.
    NoImage,
}

/// What was heard of a child.
#[derive(Clone, Copy, Debug, PartialEq, Eq)]
pub enum Heard {
    /// A line.
    Line,
    /// The end of all that it says.
    Ended,
    /// A line of more than 4,096 bytes, which is dropped.
    TooLong,
}
