//! What a running master knows of itself.
ghost use Rattle.std.specs.Prelude.{◌≡◌, ◌<◌, ◌≤◌, Option, Some, option_map};
ghost use Rattle.std.specs.List.{AllByRecursion};
ghost use Rattle.call_laws.specs.Start.{started};
ghost use Rattle.definitions.specs.Master.{Record as Known};
ghost use Rattle.definitions.specs.After.{next_image};
ghost use Rattle.definitions.specs.After.{renewed, upgraded, target_record, old_record, named_record, reported};
ghost use Rattle.definitions.specs.After.{keeps_rules, record_from, record_after};
ghost use Rattle.service_state.specs.Setups.{basis_of, on_basis};

use crate::setup::{Setup, next_config, next_image};
use listener_set::{FilePath, Generation, Numbers, WORKER_LIMIT};
use master_listeners::Listeners;
use std::marker::Model;
use vocabulary::{Outcome, PidNote, Report, Settings, Side, Target};
use worker_groups::Posts;

/// What a running master knows of itself. Contracts see the record of these values. It has at least one listener, and
/// each ready number is below the wanted count.
#[derive(Clone, Copy, Debug)]
pub struct Record {
    /// Where it listens.
    pub listeners: Listeners,
    /// Where the workers of each group listen.
    pub posts: Posts,
    /// What its workers run.
    pub generation: Generation,
    /// The numbers of its ready workers.
    pub ready: Numbers,
    /// How many workers are wanted, from 0 to 1024.
    pub wanted: u32,
    /// How many rounds of starts a plan makes before it gives up, from 0 to 8.
    pub retries: u32,
    /// After how many seconds without a beat a worker is overdue, from 1 to 86,400.
    pub timeout: u32,
    /// The pid file, a path of at most 100 bytes.
    pub pid_path: Option<FilePath>,
    /// Where the pid file stands.
    pub note: PidNote,
    /// The master's process number, at least 1.
    pub pid: u32,
}

impl Model for Record {
    ghost use Rattle.definitions.specs.Master.{Record as Known, IsRecord};

    ghost Value = { Known };

    ghost view = { λ r. record { listeners = r.listeners; posts = r.posts; generation = r.generation; ready = r.ready; wanted = r.wanted; retries = r.retries; timeout = r.timeout; pid_path = r.pid_path; note = r.note; pid = r.pid } };

    ghost invariant = { λ r. IsRecord (record { listeners = r.listeners; posts = r.posts; generation = r.generation; ready = r.ready; wanted = r.wanted; retries = r.retries; timeout = r.timeout; pid_path = r.pid_path; note = r.note; pid = r.pid }) };

    ghost inverse = { λ v. record { listeners = v.listeners; posts = v.posts; generation = v.generation; ready = v.ready; wanted = v.wanted; retries = v.retries; timeout = v.timeout; pid_path = v.pid_path; note = v.note; pid = v.pid } };
}

impl Record {
    /// The record of a master that starts with these settings: generation 1.1, the addresses from descriptor 3 on in
    /// their order, of which each group has the next so many, the pid file, if there is one, in its place.
    pub fn start(settings: &Settings, wanted: u32, ready: &Numbers, pid: u32) -> Self
        requires wanted { wanted ≤ 1024 }
        requires ready { AllByRecursion (λ k. k < wanted) ready.now }
        requires pid { 1 ≤ pid }
        ensures { result ≡ started settings.now wanted ready.now pid }
    {
        Record {
            listeners: Listeners::from_set(&settings.listeners),
            posts: Posts::first(&settings.groups),
            generation: Generation {
                image: 1,
                config: 1,
            },
            ready: *ready,
            wanted,
            retries: settings.retries,
            timeout: settings.timeout,
            pid_path: settings.pid,
            note: match settings.pid {
                None => PidNote::NoFile,
                Some(_) => PidNote::InPlace,
            },
            pid,
        }
    }

    fn setup(&self) -> Setup
        ensures { result ≡ basis_of self.now }
    {
        Setup {
            listeners: self.listeners,
            posts: self.posts,
            generation: self.generation,
            wanted: self.wanted,
            retries: self.retries,
            timeout: self.timeout,
        }
    }

    /// What the target's service stands on; a stop has none.
    fn target_setup(&self, target: &Target) -> Option<Setup>
        ensures { result ≡ option_map basis_of (target_record self.now target.now) }
    {
        match target {
            Target::Workers(wanted) => Some(Setup {
                wanted: *wanted,
                ..self.setup()
            }),
            Target::Mend(_) | Target::Reopen => Some(self.setup()),
            Target::Reload(settings) => Setup::renewed(
                settings,
                self.posts_wanted(target),
                self.listeners.reloaded(&settings.listeners),
                next_config(self.generation),
            ),
            Target::Upgrade(settings) => self.upgraded_setup(settings, self.posts_wanted(target)),
            Target::Attended(settings) => self.upgraded_setup(settings, self.posts_wanted(target)),
            Target::Stop { .. } => None,
        }
    }

    /// What the service of an upgrade stands on, with these posts.
    fn upgraded_setup(&self, settings: &Settings, posts: Posts) -> Option<Setup>
        ensures { result ≡ option_map basis_of (renewed self.now settings.now posts (upgraded settings.now.listeners self.now.listeners) (next_image self.now.generation)) }
    {
        Setup::renewed(
            settings,
            posts,
            self.listeners.upgraded(&settings.listeners),
            next_image(self.generation),
        )
    }

    /// What the service that ran before stands on; nothing runs after a stop.
    fn old_setup(&self, target: &Target) -> Option<Setup>
        ensures { result ≡ option_map basis_of (old_record self.now target.now) }
    {
        match target {
            Target::Stop { .. } => None,
            _ => Some(self.setup()),
        }
    }

    /// What the service that an outcome names stands on.
    fn setup_after(&self, outcome: &Outcome, target: &Target) -> Option<Setup>
        ensures { result ≡ option_map basis_of (named_record outcome.now self.now target.now) }
    {
        match outcome {
            Outcome::Done => self.target_setup(target),
            Outcome::RolledBack => self.old_setup(target),
            Outcome::Degraded { side, .. } => match side {
                Side::Old => self.old_setup(target),
                Side::Target => self.target_setup(target),
            },
            Outcome::Lost => None,
        }
    }

    /// A record of what a report says of a service, unless it would break the rules of a record.
    fn recorded(&self, setup: &Setup, report: &Report, pid: u32) -> Option<Self>
        ensures { result ≡ record_from (Some (on_basis self.now setup.now)) report.now pid }
    {
        // Only a reading of the posts tells that their groups are as groups have to be.
        let _ = setup.posts.groups();
        if !keeps_rules(setup, report, pid) {
            return None;
        }
        Some(Record {
            listeners: setup.listeners,
            posts: setup.posts,
            generation: setup.generation,
            ready: report.ready,
            wanted: setup.wanted,
            retries: setup.retries,
            timeout: setup.timeout,
            pid_path: self.pid_path,
            note: report.note,
            pid,
        })
    }

    /// The record after a plan for a target has ended with a report, where `pid` is the number of the master that runs
    /// then. Done and a shortfall of the target give the target's service, a rollback and a shortfall of the old side
    /// the one that ran before; the ready numbers and the note are the report's. None after a stop, where the run was
    /// lost, and where the result would break the rules of a record or a limit.
    pub fn after(&self, target: &Target, report: &Report, pid: u32) -> Option<Self>
        ensures { result ≡ record_after self.now target.now report.now pid }
    {
        let setup = self.setup_after(&report.outcome, target)?;
        self.recorded(&setup, report, pid)
    }

    /// The image that runs the service which an outcome names. None after a stop and where the run was lost.
    pub fn image_after(&self, target: &Target, outcome: &Outcome) -> Option<u32>
        ensures { result ≡ option_map (λ r. r.generation.image) (named_record outcome.now self.now target.now) }
    {
        self.setup_after(outcome, target)
            .map(|setup| setup.generation.image)
    }
}

/// Whether there is a listener, at most 1024 workers are wanted, each ready number is below the wanted count, and the
/// process number is at least 1.
fn keeps_rules(setup: &Setup, report: &Report, pid: u32) -> bool
    ensures { (old : Known) → result ≡ keeps_rules (reported (on_basis old setup.now) report.now pid) }
{
    !setup.listeners.as_slice().is_empty()
        && setup.wanted <= WORKER_LIMIT
        && report.ready.next_from(setup.wanted).is_none()
        && pid != 0
}
