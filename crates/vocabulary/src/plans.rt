//! The words of a plan.
use crate::{Actor, Call};
use listener_set::{Generation, Numbers};
use worker_groups::{Crew, Groups};

/// The service that ran before, or the one that the plan is to reach.
#[derive(Clone, Copy, Debug, PartialEq, Eq)]
pub enum Side {
    Old,
    Target,
}

/// The groups of the old side and of the target's, by which a report says what is lacking.
#[derive(Clone, Copy, Debug)]
pub struct Sides {
    pub old: Groups,
    pub target: Groups,
}

/// Which master makes the next call, where the parts of both have one.
#[derive(Clone, Copy, Debug, PartialEq, Eq)]
pub enum Turn {
    New,
    Old,
}

/// How a plan ends.
#[derive(Clone, Copy, Debug, PartialEq, Eq)]
pub enum End {
    /// The target's service runs.
    Done,
    /// The old service runs.
    RolledBack,
    /// The old service runs, less what the last census lacked.
    ShortOld,
    /// The target's service runs, less what the last census lacked.
    ShortTarget,
    /// A mark: here the parts of two masters begin. No run ends at a mark.
    Split,
    /// A mark: the new master's part has ended, and the new master is ready.
    JoinReady,
    /// A mark: the new master's part has ended, and the plan goes back.
    JoinBack,
    /// A mark: the old master's part has ended.
    Join,
}

/// Where the reigning master's pid file stands.
#[derive(Clone, Copy, Debug, PartialEq, Eq)]
pub enum PidNote {
    /// At its path, and no file with the suffix `.oldbin` is there.
    InPlace,
    /// At its path with the suffix `.oldbin`.
    AtOldbin,
    /// At its path, and a file with the suffix is there too.
    OldbinLeft,
    /// A file is there, and no master.
    Left,
    /// There is none.
    NoFile,
}

/// What the last census of a master lacked of its set.
#[derive(Clone, Copy, Debug, PartialEq, Eq)]
pub struct Lack {
    pub by: Actor,
    pub numbers: Numbers,
}

/// What a step asks for. The steps of a settle name their worker when they run: the lowest
/// number that the last census of the step's master lacked.
#[derive(Clone, Copy, Debug, PartialEq, Eq)]
pub enum Order {
    Make(Call),
    ForkLacking(Crew),
    AwaitLacking(Generation),
    KillLacking(Generation),
}
