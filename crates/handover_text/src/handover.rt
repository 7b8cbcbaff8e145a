//! What an old master hands over to a new one.
use listener_set::{FilePath, Generation, ListenerSet};
use master_listeners::Listeners;
use std::marker::Model;
use worker_groups::Groups;

/// What an old master tells a new one: what it has, and what is wanted of the new one. Contracts see the record of these
/// values. It has at least one listener, and its groups take all the addresses that are wanted.
#[derive(Clone, Copy, Debug)]
pub struct Handover {
    /// The old master's process number, at least 1.
    pub old_pid: u32,
    /// What the new master is to run.
    pub generation: Generation,
    /// Where the old master listens: from 1 to 64 addresses.
    pub listeners: Listeners,
    /// Where the new master is to listen: from 1 to 64 addresses.
    pub want: ListenerSet,
    /// The groups of workers: each takes the next so many of these addresses.
    pub groups: Groups,
    /// The old master's pid file, a path of at most 100 bytes.
    pub pid_file: Option<FilePath>,
}

impl Model for Handover {
    ghost use Rattle.definitions.specs.Calls.{Handover as Told};
    ghost use Rattle.handover_text.specs.Ranges.{IsInRange};

    ghost Value = { Told };

    ghost view = { λ h. record { old_pid = h.old_pid; generation = h.generation; listeners = h.listeners; want = h.want; groups = h.groups; pid_file = h.pid_file } };

    ghost invariant = { λ h. IsInRange (record { old_pid = h.old_pid; generation = h.generation; listeners = h.listeners; want = h.want; groups = h.groups; pid_file = h.pid_file }) };

    ghost inverse = { λ v. record { old_pid = v.old_pid; generation = v.generation; listeners = v.listeners; want = v.want; groups = v.groups; pid_file = v.pid_file } };
}
