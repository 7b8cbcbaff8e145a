//! How a master starts: its configuration, and the one that a reload goes over to.
ghost use Rattle.std.specs.Prelude.{◌≡◌, IfOk, IfErr};
ghost use Rattle.master_on_kernel.specs.Starts.{IsOfStart, IsStartOf, record_at, silent_workers};

use faults::Fault;
use kernel_model::BootRefusal;
use listener_set::{Numbers, WORKER_LIMIT};
use master_config::settings_in;
use service_state::Record;
use std::alloc::{AllocError, Global};
use std::rt::Files;
use vocabulary::Settings;
use worker_table::WorkerTable;

/// What a start is asked for: the files that it reads, and how many workers it has.
#[derive(Clone, Copy)]
pub struct StartSetup<'a> {
    /// The file of the settings. Without it the defaults hold.
    pub from: Option<&'a str>,
    /// The file of the settings that HUP and USR2 go over to. Without it they are those of the start.
    pub to: Option<&'a str>,
    /// How many workers are wanted. Without it the settings say so.
    pub workers: Option<u32>,
    /// No worker runs at first, however many are wanted.
    pub bare: bool,
}

/// What the files and options of a start say.
#[derive(Clone, Copy)]
pub struct Start {
    /// The settings that the master starts with.
    pub settings: Settings,
    /// The settings that HUP and USR2 go over to.
    pub next: Settings,
    /// How many workers are wanted.
    pub wanted: u32,
    /// How many workers run at first.
    pub running: u32,
}

impl Start {
    /// Reads the files, that of the start first. Without one the defaults hold; the start's
    /// settings are taken up again where no other file is named.
    pub fn read<R: AllocGlobal + Files>(rt: &R, setup: &StartSetup<'_>) -> Result<Start, Fault>
        ensures ok { IfOk result (IsStartOf setup.now) }
        ensures err { IfErr result (IsOfStart setup.now) }
    {
        let settings = settings_in(rt, setup.from, Settings::plain())?;
        let next = settings_in(rt, setup.to, settings)?;
        let wanted = setup.workers.unwrap_or(settings.workers);
        Ok(Start {
            settings,
            next,
            wanted,
            running: if setup.bare { 0 } else { wanted },
        })
    }

    /// What the master knows of itself. More workers than there can be is a fault of the boot.
    pub fn record(&self) -> Result<Record, Fault>
        ensures { result ≡ record_at self.now }
    {
        if self.wanted > WORKER_LIMIT || self.running > self.wanted {
            return Err(Fault::Boot(BootRefusal::BadLimits));
        }
        let ready = Numbers::below(self.running);
        Ok(Record::start(&self.settings, self.wanted, &ready, 100))
    }
}

/// The table of a master's ready workers, none of which has beaten yet.
pub(crate) fn silent_workers(alloc: Global, state: &Record) -> Result<WorkerTable, AllocError>
    ensures { IfOk result (λ workers. workers ≡ silent_workers state.now) }
{
    let mut workers = WorkerTable::new(alloc)?;
    workers.follow(&state.ready, &Numbers::none());
    Ok(workers)
}
