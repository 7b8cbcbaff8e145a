//! Entries of a log, in little room.
ghost use Rattle.std.specs.Prelude.{◌≡◌, IfSome};
ghost use Rattle.plan_walk.specs.WorkerAnswers.{answer_of};

use rollback_plan::WorkerCall;
use std::marker::Model;
use vocabulary::{Actor, Answer, Entry};

/// What a call that names a worker is answered, without the room that a census needs.
#[derive(Clone, Copy, Debug)]
pub(crate) enum WorkerAnswer {
    Fine,
    Forked,
    Again,
    NoMemory,
    IsReady,
    Gone,
    Late,
    MasterGone,
}

impl WorkerAnswer {
    /// The answer, if a call that names a worker can be given it.
    fn of(answer: &Answer) -> Option<WorkerAnswer>
        ensures { IfSome result (λ short. answer_of short ≡ answer.now) }
    {
        match answer {
            Answer::Fine => Some(WorkerAnswer::Fine),
            Answer::Forked => Some(WorkerAnswer::Forked),
            Answer::Again => Some(WorkerAnswer::Again),
            Answer::NoMemory => Some(WorkerAnswer::NoMemory),
            Answer::IsReady => Some(WorkerAnswer::IsReady),
            Answer::Gone => Some(WorkerAnswer::Gone),
            Answer::Late => Some(WorkerAnswer::Late),
            Answer::MasterGone => Some(WorkerAnswer::MasterGone),
            _ => None,
        }
    }

    /// The answer itself.
    fn answer(self) -> Answer
        ensures { result ≡ answer_of self }
    {
        match self {
            WorkerAnswer::Fine => Answer::Fine,
            WorkerAnswer::Forked => Answer::Forked,
            WorkerAnswer::Again => Answer::Again,
            WorkerAnswer::NoMemory => Answer::NoMemory,
            WorkerAnswer::IsReady => Answer::IsReady,
            WorkerAnswer::Gone => Answer::Gone,
            WorkerAnswer::Late => Answer::Late,
            WorkerAnswer::MasterGone => Answer::MasterGone,
        }
    }
}

/// A call that names a worker, with its answer. Contracts see the entry.
#[derive(Debug, Drop)]
pub(crate) struct WorkerEntry {
    by: Actor,
    call: WorkerCall,
    short: WorkerAnswer,
}

impl Model for WorkerEntry {
    ghost use Rattle.plan_walk.specs.WorkerAnswers.{answer_of};
    ghost use Rattle.vocabulary.specs.declared.reports.Entry.{Entry};

    ghost Value = { Entry };

    ghost view = { λ e. record { by = e.by; call = e.call; answer = answer_of e.short } };
}

impl WorkerEntry {
    /// The entry, if its call names a worker and its answer is one that such a call can be given.
    pub(crate) fn of(entry: &Entry) -> Option<WorkerEntry>
        ensures { IfSome result (λ kept. kept ≡ entry.now) }
    {
        Some(WorkerEntry {
            by: entry.by,
            call: WorkerCall::of(&entry.call)?,
            short: WorkerAnswer::of(&entry.answer)?,
        })
    }

    /// The entry itself.
    pub(crate) fn entry(&self) -> Entry
        ensures { result ≡ self.now }
    {
        Entry {
            by: self.by,
            call: self.call.call(),
            answer: self.short.answer(),
        }
    }
}

/// Where an entry is kept: here, or at this place among those that are kept whole.
#[derive(Debug, Drop)]
pub(crate) enum Slot {
    Worker(WorkerEntry),
    Whole(u32),
}
