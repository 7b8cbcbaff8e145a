//! What was done, and how it ended.
use crate::{Actor, Answer, Call, PidNote, Side};
use listener_set::Numbers;
use worker_groups::Shortfalls;

/// A call that was made, with its answer.
#[derive(Clone, Copy, Debug, PartialEq, Eq)]
pub struct Entry {
    pub by: Actor,
    pub call: Call,
    pub answer: Answer,
}

/// How a run of a plan ended.
#[derive(Clone, Copy, Debug, PartialEq, Eq)]
pub enum Outcome {
    /// The target's service runs.
    Done,
    /// The old service runs.
    RolledBack,
    /// That side's service runs, with so many workers of each of its groups fewer.
    Degraded { side: Side, shortfalls: Shortfalls },
    /// The master that should act is gone, and the plan has no way on.
    Lost,
}

/// How a run of a plan went.
#[derive(Clone, Copy, Debug, PartialEq, Eq)]
pub struct Report {
    pub outcome: Outcome,
    /// The number, from 1, of the first call that was not answered plainly or whose census
    /// lacked a number; none where there is no such call.
    pub cause: Option<u32>,
    /// Where the pid file stands.
    pub note: PidNote,
    /// The last census; empty where there was none.
    pub ready: Numbers,
}
