//! What a word asks of a running master.
ghost use Rattle.std.specs.Prelude.{◌≡◌};
ghost use Rattle.std.specs.Option.{option_copied};
ghost use Rattle.worker_table.specs.Calls.{beating};
ghost use Rattle.word_runner.specs.Asking.{beat_in, overdue_at, asked_by, IsPossible, IsNoted};

use crate::{Body, CodeText};
use control_words::{Word, target_of};
use listener_set::Numbers;
use service_state::Record;
use vocabulary::{Settings, Target};
use worker_table::WorkerTable;

/// A worker's beat.
#[derive(Clone, Copy)]
pub struct HeardBeat {
    pub nr: u32,
    pub now: u64,
}

/// What a word asks of a running master.
#[derive(Drop)]
pub enum Asked {
    /// Nothing: there is nothing to change.
    Nothing,
    /// To note a beat in its table of workers, which may refuse it.
    Beat(HeardBeat),
    /// To carry out a target.
    Act(Target),
    /// Nothing, since the word is refused with this code.
    Refused(CodeText),
}

/// What a word asks of a running master with this table of workers. `settings` are those of a new
/// configuration. It takes no memory.
pub fn asked_by(
    word: Word,
    running: &Record,
    workers: &WorkerTable,
    settings: Option<&Settings>,
) -> Asked
    ensures exact { result ≡ asked_by word running.now workers.now (option_copied settings.entry) }
    ensures possible { IsPossible result }
{
    if let Some(heard) = beat_in(word) {
        return Asked::Beat(heard);
    }
    let overdue = overdue_at(word, running, workers);
    match target_of(word, running, &overdue, settings) {
        Ok(Some(target)) => Asked::Act(target),
        Ok(None) => Asked::Nothing,
        Err(refusal) => Asked::Refused(CodeText::from(refusal)),
    }
}

/// Notes a beat; the table of workers may refuse it.
pub fn note(workers: &mut WorkerTable, heard: HeardBeat) -> Body
    ensures { IsNoted (beating workers.old heard.nr heard.now) heard.nr heard.now workers.old result workers.new }
{
    match workers.beat(heard.nr, heard.now) {
        Ok(()) => Body::Nothing,
        Err(refusal) => Body::Refused(CodeText::from(refusal)),
    }
}

/// The beat that a word tells of.
fn beat_in(word: Word) -> Option<HeardBeat>
    ensures { result ≡ beat_in word }
{
    match word {
        Word::Beat { nr, now } => Some(HeardBeat { nr, now }),
        _ => None,
    }
}

/// The workers that are overdue at a tick; at another word none is.
fn overdue_at(word: Word, running: &Record, workers: &WorkerTable) -> Numbers
    ensures { result ≡ overdue_at word running.now workers.now }
{
    match word {
        Word::Tick { now } => workers.overdue(now, running.timeout),
        _ => Numbers::none(),
    }
}
