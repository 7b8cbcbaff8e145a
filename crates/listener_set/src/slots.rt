//! Sockets at numbered places.
ghost use Rattle.std.specs.Prelude.{◌≡◌, ◌<◌, ℕ, Some, None, get_or, slice_set, replicate, length};

use crate::MOST_DESCRIPTORS;
use std::marker::Model;

/// A socket number or none at each of 64 places: a bit for each place that is taken, so that a slot has half the bytes
/// that an option has.
#[derive(Clone, Copy, Debug)]
pub(crate) struct Slots {
    taken: u64,
    sockets: [u32; MOST_DESCRIPTORS],
}

impl Model for Slots {
    ghost use Rattle.std.specs.Prelude.{ℕ, List, Option};
    ghost use Rattle.listener_set.specs.Slots.{slots_in, bits_of, numbers_in, AreSlots};
    ghost use Rattle.listener_set.specs.SlotLemmas.{taken_again, sockets_again};

    ghost Value = { List (Option ℕ) };

    ghost view = { λ s. slots_in s.taken s.sockets };

    ghost invariant = { λ s. AreSlots s.taken s.sockets };

    ghost inverse = { λ slots. record { taken = bits_of slots; sockets = numbers_in slots } };

    ghost inverse_ok = { λ s h i. record { taken = taken_again s.taken s.sockets h i; sockets = sockets_again s.taken s.sockets h i } };
}

impl Slots {
    /// No place is taken.
    pub(crate) fn none() -> Self
        ensures { result ≡ replicate 64 None }
    {
        Slots {
            taken: 0,
            sockets: [0; MOST_DESCRIPTORS],
        }
    }

    /// The socket at a place; none where no socket is there, or no place.
    pub(crate) fn get(&self, place: usize) -> Option<u32>
        ensures socket { result ≡ get_or self.now place None }
        ensures count { length self.now ≡ 64 }
    {
        let socket = *self.sockets.get(place)?;
        if (self.taken >> place) & 1 == 1 {
            Some(socket)
        } else {
            None
        }
    }

    /// Puts a socket at a place.
    pub(crate) fn put(&mut self, place: usize, socket: u32)
        requires { place < 64 }
        ensures { self.new ≡ slice_set self.old place (Some socket) }
    {
        self.taken |= 1 << place;
        self.sockets[place] = socket;
    }

    /// Clears a place.
    pub(crate) fn clear(&mut self, place: usize)
        requires { place < 64 }
        ensures { self.new ≡ slice_set self.old place None }
    {
        self.taken &= !(1 << place);
        self.sockets[place] = 0;
    }
}
