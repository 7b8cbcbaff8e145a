//! Who works for a master, and where the workers of a target listen.
ghost use Rattle.std.specs.Prelude.{◌≡◌, false, unwrap_or};
ghost use Rattle.definitions.specs.Master.{addresses_of_group};
ghost use Rattle.definitions.specs.Master.{crew_of};
ghost use Rattle.definitions.specs.Master.{generation_wanted, sides_of};
ghost use Rattle.definitions.specs.After.{upgraded, listeners_then, posts_wanted, crew_wanted, posts_of};
ghost use Rattle.service_state.specs.Targets.{lacks_generation};

use crate::record::Record;
use crate::setup::{next_config, next_image};
use listener_set::{Address, Generation};
use master_listeners::Listeners;
use vocabulary::{Settings, Sides, Target};
use worker_groups::{Crew, Posts};

impl Record {
    /// The workers that the master has.
    pub fn crew(&self) -> Crew
        ensures { result ≡ crew_of self.now }
    {
        Crew {
            generation: self.generation,
            posts: self.posts,
        }
    }

    /// The listeners while the workers of an upgrade are started.
    fn listeners_upgraded(&self, settings: &Settings) -> Listeners
        ensures { result ≡ unwrap_or (upgraded settings.now.listeners self.now.listeners) self.now.listeners }
    {
        let upgraded = self.listeners.upgraded(&settings.listeners);
        upgraded.unwrap_or(self.listeners)
    }

    /// The listeners while the target's workers are started: with what is added, and, of an upgrade, without what is
    /// dropped.
    fn listeners_then(&self, target: &Target) -> Listeners
        ensures { result ≡ listeners_then self.now target.now }
    {
        match target {
            Target::Reload(settings) => {
                let opened = self.listeners.opened(&settings.listeners);
                opened.unwrap_or(self.listeners)
            }
            Target::Upgrade(settings) => self.listeners_upgraded(settings),
            Target::Attended(settings) => self.listeners_upgraded(settings),
            _ => self.listeners,
        }
    }

    /// Where the workers of a target listen: those of each group of new settings at the descriptors that its addresses
    /// have when they are started, and those of other targets where the record has them.
    pub fn posts_wanted(&self, target: &Target) -> Posts
        ensures { result ≡ posts_wanted self.now target.now }
    {
        match target {
            Target::Reload(settings) | Target::Upgrade(settings) | Target::Attended(settings) => {
                posts_of(settings, &self.listeners_then(target))
            }
            _ => self.posts,
        }
    }

    /// What the workers of a target run. No number of it may pass 4,294,967,295.
    pub(crate) fn generation_wanted(&self, target: &Target) -> Generation
        requires { lacks_generation self.now target.now ≡ false }
        ensures { result ≡ generation_wanted self.now target.now }
    {
        let next = match target {
            Target::Reload(_) => next_config(self.generation),
            Target::Upgrade(_) | Target::Attended(_) => next_image(self.generation),
            _ => None,
        };
        next.unwrap_or(self.generation)
    }

    /// The workers that a target wants, as they are started. No number of their generation may pass 4,294,967,295.
    pub fn crew_wanted(&self, target: &Target) -> Crew
        requires { lacks_generation self.now target.now ≡ false }
        ensures { result ≡ crew_wanted self.now target.now }
    {
        Crew {
            generation: self.generation_wanted(target),
            posts: self.posts_wanted(target),
        }
    }

    /// The groups that there are before a target is carried out, and those that it wants.
    pub fn sides(&self, target: &Target) -> Sides
        ensures { result ≡ sides_of self.now target.now }
    {
        let old = *self.posts.groups();
        let target = match target {
            Target::Reload(settings) | Target::Upgrade(settings) | Target::Attended(settings) => {
                settings.groups
            }
            _ => old,
        };
        Sides { old, target }
    }
}

/// The addresses of the group at a place, counted from 0.
pub(crate) fn addresses_of_group(settings: &Settings, place: usize) -> &[Address]
    ensures { result.now ≡ addresses_of_group settings.now.groups settings.now.listeners place }
{
    let mut rest = settings.listeners.as_slice();
    let groups = settings.groups.as_slice();
    for (index, group) in groups.iter().enumerate() {
        let (own, more) = rest.split_at(group.addresses as usize);
        if index == place {
            return own;
        }
        rest = more;
    }
    &[]
}

/// Where the workers of each group of new settings listen, at these listeners.
fn posts_of(settings: &Settings, listeners: &Listeners) -> Posts
    ensures { result ≡ posts_of settings.now.groups settings.now.listeners listeners.now }
{
    let mut posts = Posts::new(&settings.groups);
    let groups = settings.groups.as_slice().len();
    for place in 0..groups {
        let own = addresses_of_group(settings, place);
        posts.set_descriptors(place, &listeners.descriptors_at(own));
    }
    posts
}
