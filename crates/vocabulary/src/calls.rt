//! Calls of the kernel, their answers, and how a pattern makes them fail.
use listener_set::{Address, DescriptorSet, FilePath, Generation, Numbers};

/// A call that a master makes.
#[derive(Clone, Copy, Debug, PartialEq, Eq)]
pub enum Call {
    /// Opens a listening socket of the address at the caller's lowest free descriptor.
    OpenAt(Address),
    /// The caller and its workers give up their sockets of the address.
    CloseAt(Address),
    /// Starts a worker with the caller's sockets under the same descriptors: those of the set, or all
    /// where there is none.
    Fork(Generation, u32, Option<DescriptorSet>),
    /// Waits until a worker is ready or gone.
    AwaitReady(Generation, u32),
    /// Tells a worker to finish what it has and to end.
    Quit(Generation, u32),
    /// Ends a worker at once.
    Kill(Generation, u32),
    /// Counts the caller's ready workers of the generation.
    Census(Generation),
    /// Waits until a worker is gone.
    AwaitGone(Generation, u32),
    /// Starts a master of the image, with the caller's sockets under the same descriptors.
    SpawnMaster(u32),
    /// The caller takes over what the handover's text says.
    Adopt,
    /// Writes the caller's process number to the file.
    WritePid(FilePath),
    /// Renames a file, from the first path to the second.
    MovePid(FilePath, FilePath),
    /// Removes the file.
    RemovePid(FilePath),
    /// Asks whether the master of the image lives.
    Alive(u32),
    /// The caller ends, with its workers.
    Leave,
    /// Tells a worker to open its logs anew.
    Usr1(Generation, u32),
    /// Ends the master of the image, with its workers.
    TermMaster(u32),
    /// Asks the operator whether to go on with an upgrade or back: question 1 before the old workers quit, question 2 once
    /// they are gone.
    Ask(u32),
}

/// What a call is answered.
#[derive(Clone, Copy, Debug, PartialEq, Eq)]
pub enum Answer {
    /// The socket stands at this descriptor, from 3 to 66.
    Opened(u32),
    /// Somebody holds the address.
    InUse,
    /// The caller has as many descriptors as it may have.
    TooMany,
    /// The address may not be opened.
    Denied,
    /// The kernel has no memory.
    NoMemory,
    /// The call has had its effect.
    Fine,
    /// The worker is started.
    Forked,
    /// No process can be started now.
    Again,
    /// The worker is ready.
    IsReady,
    /// The worker is gone.
    Gone,
    /// The worker did not get ready, or did not end, in time.
    Late,
    /// These workers are ready.
    Counted(Numbers),
    /// The master is started.
    Spawned,
    /// There is no program of the image.
    NoImage,
    /// The handover is the caller's own image, descriptors and addresses.
    Adopted,
    /// The handover is no such text.
    Refused,
    /// The file could not be written, renamed or removed.
    IoFault,
    /// The master lives.
    IsAlive,
    /// The operator goes on.
    Go,
    /// The operator goes back to the old service. This is a cause, and no fault.
    Back,
    /// The master that should make the call is gone.
    MasterGone,
}

/// How a pattern makes a call fail.
#[derive(Clone, Copy, Debug, PartialEq, Eq)]
pub enum Fate {
    InUse,
    TooMany,
    Denied,
    NoMemory,
    Again,
    Late,
    NoImage,
    Refused,
    IoFault,
    Back,
}

impl Fate {
    /// Each fate, once.
    pub const ALL: [Fate; 10] = [
        Fate::InUse,
        Fate::TooMany,
        Fate::Denied,
        Fate::NoMemory,
        Fate::Again,
        Fate::Late,
        Fate::NoImage,
        Fate::Refused,
        Fate::IoFault,
        Fate::Back,
    ];
}

/// What an edge of a plan tells apart of an answer.
#[derive(Clone, Copy, Debug, PartialEq, Eq)]
pub enum Reply {
    Opened,
    InUse,
    TooMany,
    Denied,
    NoMemory,
    Fine,
    Forked,
    Again,
    IsReady,
    Gone,
    Late,
    /// A census that has every number of its step's set.
    Full,
    /// A census that lacks a number of its step's set.
    Short,
    Spawned,
    NoImage,
    Adopted,
    Refused,
    IoFault,
    IsAlive,
    Go,
    Back,
    MasterGone,
}
