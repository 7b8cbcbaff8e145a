//! What the groups of a configuration come to.
ghost use Rattle.std.specs.Prelude.{◌≡◌, ◌+◌, ◌<◌, ◌≤◌, ◌++◌, ◌∷◌, [], None, Ok, Err, OnOk, IfErr, length, unwrap_or};
ghost use Rattle.worker_groups.specs.Groups.{workers_in, group_refused};
ghost use Rattle.master_config.specs.Groups.{no_pools, one_pool, with_group};
ghost use Rattle.master_config.specs.Configuration.{settings_with};

use crate::rest::Rest;
use crate::{ConfigRefusal, Key};
use listener_set::{ListenerSet, WORKER_LIMIT};
use std::marker::Model;
use vocabulary::Settings;
use worker_groups::{Group, Groups};

/// What groups come to: the listeners of all, in order, and how many each has, with its workers.
#[derive(Drop)]
pub struct Pools {
    listeners: ListenerSet,
    groups: Option<Groups>,
}

impl Model for Pools {
    ghost use Rattle.std.specs.Prelude.{◌≡◌, [], length, unwrap_or};
    ghost use Rattle.worker_groups.specs.Groups.{addresses_in};
    ghost use Rattle.master_config.specs.Groups.{Pools as Read};

    ghost Value = { Read };

    ghost view = { λ p. record { listeners = p.listeners; groups = unwrap_or p.groups [] } };

    ghost invariant = { λ p. addresses_in (unwrap_or p.groups []) ≡ length p.listeners };
}

/// Groups with one behind them, which breaks none of their rules.
fn behind(groups: &Option<Groups>, group: Group) -> Groups
    requires { group_refused (unwrap_or groups.now []) group ≡ None }
    ensures { result ≡ unwrap_or groups.now [] ++ group ∷ [] }
{
    let Some(groups) = groups else {
        return Groups::one(group.addresses, group.workers);
    };
    let mut all = *groups;
    match all.add(group) {
        Ok(()) => all,
        Err(_) => unreachable!(),
    }
}

impl Pools {
    /// No groups.
    pub fn new() -> Self
        ensures { result ≡ no_pools }
    {
        Pools {
            listeners: ListenerSet::new(),
            groups: None,
        }
    }

    /// One group of all listeners and workers.
    pub fn one(listeners: &ListenerSet, workers: u32) -> Self
        requires some { 1 ≤ length listeners.now }
        requires most { workers ≤ WORKER_LIMIT }
        ensures { result ≡ one_pool listeners.now workers }
    {
        Pools {
            listeners: *listeners,
            groups: Some(Groups::one(listeners.len() as u32, workers)),
        }
    }

    /// The listeners of all groups.
    pub fn listeners(&self) -> &ListenerSet
        ensures { result.now ≡ self.now.listeners }
    {
        &self.listeners
    }

    /// How many workers the groups have.
    fn workers(&self) -> u32
        ensures workers { result ≡ workers_in self.now.groups }
        ensures most { result ≤ WORKER_LIMIT }
    {
        match &self.groups {
            None => 0,
            Some(groups) => {
                let _ = groups.as_slice();
                groups.workers()
            }
        }
    }

    /// Puts a group behind the others, which has the listeners that are new.
    pub fn add(&mut self, listeners: &ListenerSet, workers: u32) -> Result<(), ConfigRefusal>
        requires more { length self.old.listeners < length listeners.now }
        requires workers { workers ≤ WORKER_LIMIT }
        requires room { length self.old.groups < 16 }
        ensures ok { OnOk result (with_group self.old listeners.now workers ≡ Ok self.new) }
        ensures grown { OnOk result (length self.new.groups ≡ length self.old.groups + 1) }
        ensures err { IfErr result (λ why. with_group self.old listeners.now workers ≡ Err why) }
    {
        if workers > WORKER_LIMIT - self.workers() {
            return Err(ConfigRefusal::OutOfRange(Key::Workers));
        }
        let addresses = (listeners.len() - self.listeners.len()) as u32;
        let groups = behind(&self.groups, Group { addresses, workers });
        self.listeners = *listeners;
        self.groups = Some(groups);
        Ok(())
    }

    /// The settings of these groups.
    pub fn settings(&self, rest: &Rest) -> Settings
        requires { 1 ≤ length self.now.groups }
        ensures { result ≡ settings_with self.now rest.now }
    {
        let groups = match self.groups {
            Some(groups) => groups,
            None => unreachable!(),
        };
        let _ = groups.as_slice();
        Settings {
            listeners: self.listeners,
            workers: groups.workers(),
            groups,
            timeout: rest.timeout,
            retries: rest.retries,
            surge: rest.surge,
            pid: rest.pid,
        }
    }
}
