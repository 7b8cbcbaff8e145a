//! Where a master stands between two words.
ghost use Rattle.std.specs.Prelude.{◌≡◌, ◌<◌, ℕ};
ghost use Rattle.std.specs.Option.{option_copied};
ghost use Rattle.listener_set.specs.Numbers.{is_in};
ghost use Rattle.worker_table.specs.Beats.{followed};
ghost use Rattle.word_runner.specs.Started.{start_of, started};

use listener_set::{Generation, Numbers, WORKER_LIMIT};
use plan_walk::Transcript;
use service_state::Record;
use vocabulary::{Answer, Call, Entry, Report};
use worker_table::WorkerTable;

/// Where a master stands between two words.
#[derive(Drop)]
pub struct Standing<W> {
    /// What its targets are carried out on: a modelled kernel, or real children.
    pub world: W,
    /// What it knows of itself, as long as it runs.
    pub record: Option<Record>,
    /// Its workers, with their beats.
    pub workers: WorkerTable,
}

impl<W> Standing<W> {
    /// Follows a run: the record is the one after it, and of the workers those stay that are ready, each with its last beat
    /// unless the run started it.
    pub fn follow(&mut self, log: &Transcript, report: &Report, after: Option<Record>)
        ensures world { self.new.world ≡ self.old.world }
        ensures record { self.new.record ≡ after }
        ensures workers { self.new.workers ≡ followed self.old.workers report.now.ready (started after log.now.entries) }
    {
        let started = started(after.as_ref(), log);
        // `lowest` says that the numbers are below the limit, which the proof cites.
        let _ = report.ready.lowest();
        self.workers.follow(&report.ready, &started);
        self.record = after;
    }
}

/// The workers that a run started and that are of the generation that runs then.
fn started(after: Option<&Record>, log: &Transcript) -> Numbers
    ensures { (k : ℕ) → k < WORKER_LIMIT → is_in result k ≡ is_in (started (option_copied after.entry) log.now.entries) k }
{
    let mut started = Numbers::none();
    let Some(after) = after else {
        return started;
    };
    let generation = after.generation;
    for place in 0..log.len() {
        if let Some(nr) = start_of(generation, &log.get(place)) {
            if nr < WORKER_LIMIT {
                started.add(nr);
            }
        }
    }
    started
}

/// The worker of a generation that a call started.
fn start_of(generation: Generation, entry: &Entry) -> Option<u32>
    ensures { result ≡ start_of generation entry.now }
{
    let Call::Fork(own, nr, _) = entry.call else {
        return None;
    };
    if matches!(entry.answer, Answer::Forked) && own == generation {
        Some(nr)
    } else {
        None
    }
}
