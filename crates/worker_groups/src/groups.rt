//! Groups of workers.
ghost use Rattle.std.specs.Prelude.{◌≡◌, ◌≤◌, ◌++◌, ◌∷◌, [], None, Some, map, length, OnOk, OnErr, IfErr};
ghost use Rattle.std.specs.List.{sum_by};
ghost use Rattle.worker_groups.specs.Groups.{addresses_in, workers_in, group_of, group_at, part_of, size_in, group_refused, AreGroups};

use listener_set::{MOST_LISTENERS, WORKER_LIMIT};
use std::marker::Model;
use thiserror::Error;

/// The most groups of a service.
pub const MOST_GROUPS: usize = 16;

/// The most addresses of a service, over all its groups.
const MOST_ADDRESSES: u32 = MOST_LISTENERS as u32;

/// A group of workers, with listeners of its own: the next so many addresses of a service, and the next so many of its
/// worker numbers.
#[derive(Clone, Copy, Debug, PartialEq, Eq)]
pub struct Group {
    /// How many addresses, from 1 to 64.
    pub addresses: u32,
    /// How many workers, from 0 to 1024.
    pub workers: u32,
}

/// Of what a group takes its share.
#[derive(Clone, Copy)]
enum Share {
    Addresses,
    Workers,
}

impl Group {
    fn size(&self, share: Share) -> u32
        ensures { result ≡ size_in share self.now }
    {
        match share {
            Share::Addresses => self.addresses,
            Share::Workers => self.workers,
        }
    }
}

/// Why a group is not taken up.
#[derive(Clone, Copy, Debug, PartialEq, Eq, Error)]
pub enum GroupRefusal {
    /// There are 16 groups already.
    #[error("there are 16 groups already")]
    TooMany,
    /// The group has no address.
    #[error("the group has no address")]
    NoAddress,
    /// The groups would have more than 64 addresses.
    #[error("the groups would have more than 64 addresses")]
    TooManyAddresses,
    /// The groups would have more than 1024 workers.
    #[error("the groups would have more than 1024 workers")]
    TooManyWorkers,
}

/// The groups of a service, from 1 to 16, with at most 64 addresses and 1024 workers in all.
#[derive(Clone, Copy, Debug, PartialEq, Eq)]
pub struct Groups {
    items: [Group; MOST_GROUPS],
    len: usize,
}

impl Model for Groups {
    ghost use Rattle.std.specs.Prelude.{◌-◌, ◌++◌, List, take, length, replicate};
    ghost use Rattle.worker_groups.specs.Groups.{Group, AreKept, no_group};
    ghost use Rattle.listener_set.specs.PaddedLemmas.{padded_again, length-padded};

    ghost Value = { List Group };

    ghost view = { λ g. take g.len g.items };

    ghost invariant = { λ g. AreKept g.items g.len };

    ghost inverse = { λ gs. record { items = gs ++ replicate (16 - length gs) no_group; len = length gs } };

    ghost inverse_ok = { λ g h i. record { items = padded_again h.padded i; len = length-padded h.padded i } };
}

impl Groups {
    /// A single group.
    pub fn one(addresses: u32, workers: u32) -> Self
        requires some { 1 ≤ addresses }
        requires addresses { addresses ≤ MOST_ADDRESSES }
        requires workers { workers ≤ WORKER_LIMIT }
        ensures { result ≡ (record { addresses = addresses; workers = workers }) ∷ [] }
    {
        let none = Group {
            addresses: 0,
            workers: 0,
        };
        let mut items = [none; MOST_GROUPS];
        items[0] = Group { addresses, workers };
        Groups { items, len: 1 }
    }

    /// The groups in order.
    pub fn as_slice(&self) -> &[Group]
        ensures items { result.now ≡ self.now }
        ensures groups { AreGroups self.now }
    {
        &self.items[..self.len]
    }

    fn total(&self, share: Share) -> u32
        ensures { result ≡ sum_by (size_in share) self.now }
    {
        let mut sum = 0;
        let all = self.as_slice();
        for group in all {
            sum += group.size(share);
        }
        sum
    }

    /// How many addresses the groups have.
    pub fn addresses(&self) -> u32
        ensures { result ≡ addresses_in self.now }
    {
        self.total(Share::Addresses)
    }

    /// How many workers the groups want.
    pub fn workers(&self) -> u32
        ensures { result ≡ workers_in self.now }
    {
        self.total(Share::Workers)
    }

    /// The place of the group into whose share a number falls; the last one where it falls into none.
    fn part_of(&self, share: Share, number: u32) -> usize
        ensures { result ≡ part_of (map (size_in share) self.now) number }
    {
        let mut rest = number;
        let last = self.len - 1;
        for index in 0..last {
            let size = self.items[index].size(share);
            if rest < size {
                return index;
            }
            rest -= size;
        }
        last
    }

    /// The place of a worker number's group, counted from 0. Numbers that no group takes are the last one's.
    pub fn group_of(&self, number: u32) -> usize
        ensures { result ≡ group_of self.now number }
    {
        self.part_of(Share::Workers, number)
    }

    /// The place of an address's group, by the address's own place in the list.
    pub fn group_at(&self, place: u32) -> usize
        ensures { result ≡ group_at self.now place }
    {
        self.part_of(Share::Addresses, place)
    }

    fn refused(&self, group: Group) -> Option<GroupRefusal>
        ensures { result ≡ group_refused self.now group }
    {
        if self.len == MOST_GROUPS {
            return Some(GroupRefusal::TooMany);
        }
        if group.addresses == 0 {
            return Some(GroupRefusal::NoAddress);
        }
        if group.addresses > MOST_ADDRESSES - self.addresses() {
            return Some(GroupRefusal::TooManyAddresses);
        }
        if group.workers > WORKER_LIMIT - self.workers() {
            return Some(GroupRefusal::TooManyWorkers);
        }
        None
    }

    /// Puts a group at the end. The first rule that does not hold is the refusal, and leaves the groups as they are: there
    /// are fewer than 16 groups, the group has an address, and with it there are at most 64 addresses and 1024 workers.
    pub fn add(&mut self, group: Group) -> Result<(), GroupRefusal>
        ensures ok { OnOk result ((group_refused self.old group ≡ None) × (self.new ≡ self.old ++ group ∷ [])) }
        ensures err { IfErr result (λ why. group_refused self.old group ≡ Some why) }
        ensures same { OnErr result (self.new ≡ self.old) }
    {
        if let Some(why) = self.refused(group) {
            return Err(why);
        }
        self.items[self.len] = group;
        self.len += 1;
        Ok(())
    }
}
