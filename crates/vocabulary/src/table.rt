//! The words of the table of processes.
use listener_set::Address;

/// Where a worker stands.
#[derive(Clone, Copy, Debug, PartialEq, Eq)]
pub enum Stance {
    /// Started, and not yet ready.
    Starting,
    /// Serving.
    Ready,
    /// Told to quit: it finishes what it has and takes nothing new.
    Draining,
    /// Ended, and not yet waited for.
    Exited,
}

/// What a kernel allows.
#[derive(Clone, Copy, Debug, PartialEq, Eq)]
pub struct Limits {
    /// How many masters and workers there may be, in any stance.
    pub processes: u32,
    /// How many descriptors a process may have.
    pub descriptors: u32,
}

/// An address with the descriptor at which a master listens on it.
#[derive(Clone, Copy, Debug)]
pub struct Listener {
    /// The descriptor, from 3 to 66.
    pub descriptor: u32,
    pub address: Address,
}
