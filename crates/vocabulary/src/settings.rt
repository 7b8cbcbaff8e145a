//! What a configuration says.
ghost use Rattle.std.specs.Prelude.{◌≡◌};
ghost use Rattle.vocabulary.specs.Settings.{plain_settings};

use listener_set::{Address, FilePath, ListenerSet};
use std::marker::Model;
use worker_groups::Groups;

/// What a configuration says. Contracts see the record of these values, each within its range.
#[derive(Clone, Copy, Debug)]
pub struct Settings {
    /// The addresses to listen on, at least one.
    pub listeners: ListenerSet,
    /// How many workers are wanted, from 0 to 1024.
    pub workers: u32,
    /// The groups of its workers, which take the addresses and the worker numbers in order; their addresses and workers
    /// add up to the two above.
    pub groups: Groups,
    /// After how many seconds without a beat a worker is overdue, from 1 to 86,400.
    pub timeout: u32,
    /// How many rounds of starts a plan makes before it gives up, from 0 to 8.
    pub retries: u32,
    /// How many new workers a step of a reload starts, from 0 to 1024; 0 is all at once.
    pub surge: u32,
    /// The pid file, a path of at most 100 bytes.
    pub pid: Option<FilePath>,
}

impl Model for Settings {
    ghost use Rattle.vocabulary.specs.Settings.{Settings as Said, IsInRange};

    ghost Value = { Said };

    ghost view = { λ s. record { listeners = s.listeners; workers = s.workers; groups = s.groups; timeout = s.timeout; retries = s.retries; surge = s.surge; pid = s.pid } };

    ghost invariant = { λ s. IsInRange (record { listeners = s.listeners; workers = s.workers; groups = s.groups; timeout = s.timeout; retries = s.retries; surge = s.surge; pid = s.pid }) };

    ghost inverse = { λ v. record { listeners = v.listeners; workers = v.workers; groups = v.groups; timeout = v.timeout; retries = v.retries; surge = v.surge; pid = v.pid } };
}

impl Settings {
    /// The settings of an empty configuration: 0.0.0.0:8080, one worker, a timeout of 60 seconds,
    /// three retries and no pid file.
    pub fn plain() -> Self
        ensures { result ≡ plain_settings }
    {
        let mut listeners = ListenerSet::new();
        let _ = listeners.add(&Address::plain());
        Settings {
            listeners,
            workers: 1,
            groups: Groups::one(1, 1),
            timeout: 60,
            retries: 3,
            surge: 0,
            pid: None,
        }
    }
}
