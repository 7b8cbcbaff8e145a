//! What a service stands on.
ghost use Rattle.std.specs.Prelude.{◌≡◌};
ghost use Rattle.definitions.specs.Master.{Record as Known};
ghost use Rattle.definitions.specs.After.{next_config, next_image};
ghost use Rattle.definitions.specs.Master.{has_next};
ghost use Rattle.definitions.specs.After.{renewed};
ghost use Rattle.service_state.specs.Setups.{basis_of};
ghost use Rattle.std.specs.Prelude.{option_map};

use listener_set::Generation;
use master_listeners::Listeners;
use std::marker::Model;
use vocabulary::Settings;
use worker_groups::Posts;

/// What a service stands on: who listens where, with which groups, in which generation, with how many workers.
#[derive(Clone, Copy, Debug)]
pub(crate) struct Setup {
    pub(crate) listeners: Listeners,
    pub(crate) posts: Posts,
    pub(crate) generation: Generation,
    pub(crate) wanted: u32,
    pub(crate) retries: u32,
    pub(crate) timeout: u32,
}

impl Model for Setup {
    ghost use Rattle.service_state.specs.Setups.{Basis, IsSetup};

    ghost Value = { Basis };

    ghost view = { λ s. record { listeners = s.listeners; posts = s.posts; generation = s.generation; wanted = s.wanted; retries = s.retries; timeout = s.timeout } };

    ghost invariant = { λ s. IsSetup (record { listeners = s.listeners; posts = s.posts; generation = s.generation; wanted = s.wanted; retries = s.retries; timeout = s.timeout }) };

    ghost inverse = { λ v. record { listeners = v.listeners; posts = v.posts; generation = v.generation; wanted = v.wanted; retries = v.retries; timeout = v.timeout } };
}

impl Setup {
    /// The service of new settings.
    pub(crate) fn renewed(
        settings: &Settings,
        posts: Posts,
        listeners: Option<Listeners>,
        generation: Option<Generation>,
    ) -> Option<Self>
        ensures { (old : Known) → result ≡ option_map basis_of (renewed old settings.now posts listeners generation) }
    {
        Some(Setup {
            listeners: listeners?,
            posts,
            generation: generation?,
            wanted: settings.workers,
            retries: settings.retries,
            timeout: settings.timeout,
        })
    }
}

/// Whether an image or config number has a next one; they end at 4,294,967,295.
fn has_next(number: u32) -> bool
    ensures { result ≡ has_next number }
{
    number < u32::MAX
}

/// The generation of a reload: the next configuration. None where its number would pass 4,294,967,295.
pub fn next_config(generation: Generation) -> Option<Generation>
    ensures { result ≡ next_config generation }
{
    if !has_next(generation.config) {
        return None;
    }
    Some(Generation {
        image: generation.image,
        config: generation.config + 1,
    })
}

/// The generation of an upgrade: the next image and the next configuration. None where a number would pass
/// 4,294,967,295.
pub fn next_image(generation: Generation) -> Option<Generation>
    ensures { result ≡ next_image generation }
{
    if !has_next(generation.image) || !has_next(generation.config) {
        return None;
    }
    Some(Generation {
        image: generation.image + 1,
        config: generation.config + 1,
    })
}
