//! Where the workers of each group listen.
ghost use Rattle.std.specs.Prelude.{◌≡◌, ◌+◌, ◌<◌, ◌≤◌, ◌==◌, [], length, replicate, get_or, set};
ghost use Rattle.worker_groups.specs.Groups.{AreGroups};
ghost use Rattle.worker_groups.specs.Crews.{is_sole, fds_in, fds_of, descriptors_from, first_posts};

use crate::{Groups, MOST_GROUPS};
use listener_set::{DescriptorSet, FIRST_DESCRIPTOR};
use std::marker::Model;

/// Where the workers of each group of a service listen: the groups, and the descriptors of each group's listeners.
#[derive(Clone, Copy, Debug, PartialEq, Eq)]
pub struct Posts {
    groups: Groups,
    descriptors: [DescriptorSet; MOST_GROUPS],
}

impl Model for Posts {
    ghost use Rattle.std.specs.Prelude.{◌-◌, ◌++◌, [], take, length, replicate};
    ghost use Rattle.listener_set.specs.PaddedLemmas.{padded_again};
    ghost use Rattle.worker_groups.specs.Crews.{Posts as Stations};
    ghost use Rattle.worker_groups.specs.Kept.{ArePosted};

    ghost Value = { Stations };

    ghost view = { λ p. record { groups = p.groups; descriptors = take (length p.groups) p.descriptors } };

    ghost invariant = { λ p. ArePosted p.groups p.descriptors };

    ghost inverse = { λ v. record { groups = v.groups; descriptors = v.descriptors ++ replicate (16 - length v.descriptors) [] } };

    ghost inverse_ok = { λ p h i. record { groups = p.groups; descriptors = padded_again h.padded i } };
}

/// So many descriptors, from one on.
fn descriptors_from(first: u32, count: u32) -> DescriptorSet
    requires first { FIRST_DESCRIPTOR ≤ first }
    requires last { first + count ≤ 67 }
    ensures { result ≡ descriptors_from first count }
{
    let mut set = DescriptorSet::none();
    for offset in 0..count {
        set.add(first + offset);
    }
    set
}

impl Posts {
    /// The groups, none of which has a descriptor yet.
    pub fn new(groups: &Groups) -> Self
        ensures posts { result ≡ record { groups = groups.now; descriptors = replicate (length groups.now) [] } }
        ensures groups { AreGroups groups.now }
    {
        let _ = groups.as_slice();
        Posts {
            groups: *groups,
            descriptors: [DescriptorSet::none(); MOST_GROUPS],
        }
    }

    /// Where the workers of a master that starts listen: each group has the next so many descriptors, from 3 on.
    pub fn first(groups: &Groups) -> Self
        ensures posts { result ≡ first_posts groups.now }
        ensures groups { AreGroups groups.now }
    {
        let mut posts = Self::new(groups);
        let all = groups.as_slice();
        let mut next = FIRST_DESCRIPTOR;
        for place in 0..all.len() {
            let count = all[place].addresses;
            posts.set_descriptors(place, &descriptors_from(next, count));
            next += count;
        }
        posts
    }

    /// Puts the descriptors of a group in the place of those that it had.
    pub fn set_descriptors(&mut self, place: usize, descriptors: &DescriptorSet)
        requires { place < length self.old.groups }
        ensures { self.new ≡ record { groups = self.old.groups; descriptors = set self.old.descriptors place descriptors.now } }
    {
        let _ = &self.descriptors;
        self.descriptors[place] = *descriptors;
    }

    /// The groups.
    pub fn groups(&self) -> &Groups
        ensures groups { result.now ≡ self.now.groups }
        ensures are { AreGroups self.now.groups }
        ensures each { length self.now.descriptors ≡ length self.now.groups }
    {
        &self.groups
    }

    /// The descriptors of the group at a place, counted from 0; none where there is no such group.
    pub fn descriptors_of(&self, place: usize) -> DescriptorSet
        ensures { result ≡ get_or self.now.descriptors place [] }
    {
        if place < MOST_GROUPS {
            self.descriptors[place]
        } else {
            DescriptorSet::none()
        }
    }

    /// Whether there is one group alone.
    pub fn is_sole(&self) -> bool
        ensures { result ≡ is_sole self.now }
    {
        self.groups.as_slice().len() == 1
    }

    /// The descriptors that the workers of a group are given. Where there is one group alone no set is named: they are
    /// given all that their master has.
    pub fn given_in(&self, place: usize) -> Option<DescriptorSet>
        ensures { result ≡ fds_in self.now place }
    {
        if self.is_sole() {
            None
        } else {
            Some(self.descriptors_of(place))
        }
    }

    /// The descriptors that the worker with a number is given, in the same way.
    pub fn given(&self, number: u32) -> Option<DescriptorSet>
        ensures { result ≡ fds_of self.now number }
    {
        self.given_in(self.groups.group_of(number))
    }
}
