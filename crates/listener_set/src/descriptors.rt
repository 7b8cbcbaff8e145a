//! The descriptors of a process.
ghost use Rattle.std.specs.Prelude.{◌≡◌, ◌≢◌, ◌<◌, ◌≤◌, ◌↔◌, ℕ, [], length, get_or, IsTrue, IsErr, IsNone, None, OnErr, IfOk, IfSome, OnSome};
ghost use Rattle.listener_set.specs.Slots.{IsFirstFree};
ghost use Rattle.listener_set.specs.Descriptors.{lowest_unused, descriptors_of, put_pair, socket_of, without_descriptor, pair_from, only_of, IsDescriptor, AreDescriptors};

use crate::descriptor_set::DescriptorSet;
use crate::slots::Slots;
use std::error::Error;
use std::fmt;
use std::marker::Model;

/// The lowest descriptor of a listener.
pub const FIRST_DESCRIPTOR: u32 = 3;

/// The most listeners of a process: its descriptors are 3 to 66.
pub const MOST_DESCRIPTORS: usize = 64;

pub(crate) const PAST_DESCRIPTORS: u32 = FIRST_DESCRIPTOR + MOST_DESCRIPTORS as u32;

/// No descriptor is free: each of the 64 has a socket.
#[derive(Clone, Copy, Debug, PartialEq, Eq)]
pub struct Full;

/// No code: the program never prints it.
impl fmt::Display for Full {
    ghost use Rattle.std.specs.Prelude.{Some, codes};

    ghost output = { λ _. Some (codes "each of the 64 descriptors is taken") };

    fn fmt<W: fmt::Write>(&self, f: &mut fmt::Formatter<W>) -> fmt::Result {
        f.write_str("each of the 64 descriptors is taken")
    }
}

impl Error for Full {}

/// The sockets that a process holds under the descriptors 3 to 66, as pairs of a descriptor and a
/// socket number in ascending descriptors.
#[derive(Clone, Copy, Debug)]
pub struct DescriptorTable {
    slots: Slots,
}

impl Model for DescriptorTable {
    ghost use Rattle.std.specs.Prelude.{◌≡◌, ℕ, List, length};
    ghost use Rattle.listener_set.specs.Descriptors.{pairs_of, slots_of};
    ghost use Rattle.listener_set.specs.DescriptorLemmas.{slots_of-pairs_of};

    ghost Value = { List (ℕ × ℕ) };

    ghost view = { λ a. pairs_of 3 a.slots };

    ghost invariant = { λ a. length a.slots ≡ 64 };

    ghost inverse = { λ pairs. record { slots = slots_of pairs } };

    ghost inverse_ok = { λ a h i. record { slots = slots_of-pairs_of a.slots h i } };
}

/// The first place without a socket.
fn first_empty(slots: &Slots) -> Option<usize>
    ensures some { IfSome result (IsFirstFree slots.now) }
    ensures none { IsNone result → (k : ℕ) → k < 64 → get_or slots.now k None ≢ None }
{
    for place in 0..MOST_DESCRIPTORS {
        if slots.get(place).is_none() {
            return Some(place);
        }
    }
    None
}

impl Default for DescriptorTable {
    ghost is_default = { λ table. table ≡ [] };

    fn default() -> Self {
        Self::new()
    }
}

impl DescriptorTable {
    /// No descriptors.
    pub fn new() -> Self
        ensures { result ≡ [] }
    {
        DescriptorTable {
            slots: Slots::none(),
        }
    }

    /// How many descriptors have a socket.
    pub fn len(&self) -> usize
        ensures count { result ≡ length self.now }
        ensures most { length self.now ≤ MOST_DESCRIPTORS }
        ensures descriptors { AreDescriptors self.now }
    {
        let mut count = 0;
        for place in 0..MOST_DESCRIPTORS {
            if self.slots.get(place).is_some() {
                count += 1;
            }
        }
        count
    }

    /// Whether no descriptor has a socket.
    pub fn is_empty(&self) -> bool
        ensures { IsTrue result ↔ (self.now ≡ []) }
    {
        self.len() == 0
    }

    /// The socket under a descriptor, if there is one.
    pub fn get(&self, descriptor: u32) -> Option<u32>
        ensures socket { result ≡ socket_of self.now descriptor }
        ensures within { OnSome result (IsDescriptor descriptor) }
        ensures descriptors { AreDescriptors self.now }
    {
        let _ = &self.slots;
        let place = descriptor.checked_sub(FIRST_DESCRIPTOR)?;
        self.slots.get(place as usize)
    }

    /// The lowest descriptor without a socket.
    fn lowest_unused(&self) -> Option<u32>
        ensures lowest { IfSome result (λ fd. fd ≡ lowest_unused (descriptors_of self.now)) }
        ensures within { IfSome result IsDescriptor }
        ensures free { IfSome result (λ fd. socket_of self.now fd ≡ None) }
        ensures full { IsNone result ↔ (length self.now ≡ MOST_DESCRIPTORS) }
    {
        let place = first_empty(&self.slots)?;
        Some(FIRST_DESCRIPTOR + place as u32)
    }

    /// Puts a socket under the lowest free descriptor, as POSIX has it, and gives that descriptor.
    /// `Full` where each of the 64 has a socket.
    pub fn put(&mut self, socket: u32) -> Result<u32, Full>
        ensures lowest { IfOk result (λ fd. fd ≡ lowest_unused (descriptors_of self.old)) }
        ensures within { IfOk result IsDescriptor }
        ensures after { IfOk result (λ fd. self.new ≡ put_pair self.old fd socket) }
        ensures full { IsErr result ↔ (length self.old ≡ MOST_DESCRIPTORS) }
        ensures err { OnErr result (self.new ≡ self.old) }
    {
        let descriptor = self.lowest_unused().ok_or(Full)?;
        self.slots
            .put((descriptor - FIRST_DESCRIPTOR) as usize, socket);
        Ok(descriptor)
    }

    /// Takes a descriptor out, and gives its socket, if there was one.
    pub fn take(&mut self, descriptor: u32) -> Option<u32>
        ensures socket { result ≡ socket_of self.old descriptor }
        ensures after { self.new ≡ without_descriptor self.old descriptor }
    {
        let socket = self.get(descriptor)?;
        self.slots.clear((descriptor - FIRST_DESCRIPTOR) as usize);
        Some(socket)
    }

    /// The lowest descriptor with a socket that is at least `bound`, with its socket.
    pub fn next_from(&self, bound: u32) -> Option<(u32, u32)>
        ensures lowest { result ≡ pair_from bound self.now }
        ensures descriptors { AreDescriptors self.now }
    {
        let _ = &self.slots;
        for descriptor in bound..PAST_DESCRIPTORS {
            if let Some(socket) = self.get(descriptor) {
                return Some((descriptor, socket));
            }
        }
        None
    }

    /// The descriptors of the set with their sockets.
    pub fn only(&self, set: &DescriptorSet) -> Self
        ensures { result ≡ only_of set.now self.now }
    {
        let _ = &self.slots;
        let mut table = *self;
        for descriptor in FIRST_DESCRIPTOR..PAST_DESCRIPTORS {
            if !set.has(descriptor) {
                table.take(descriptor);
            }
        }
        table
    }

    /// The descriptors with their sockets, upwards.
    pub fn iter(&self) -> Pairs
        ensures pairs { result ≡ self.now }
        ensures descriptors { AreDescriptors self.now }
    {
        let _ = &self.slots;
        Pairs { rest: *self }
    }
}

/// The descriptors with their sockets that are still to come, upwards.
#[derive(Clone, Debug, Drop)]
pub struct Pairs {
    rest: DescriptorTable,
}

impl Model for Pairs {
    ghost use Rattle.std.specs.Prelude.{List, ℕ};

    ghost Value = { List (ℕ × ℕ) };

    ghost view = { λ s. s.rest };
}

impl Iterator for Pairs {
    type Item = (u32, u32);

    ghost use Rattle.std.specs.Iterator.{YieldsFirst, item_count};

    ghost next_gives = { YieldsFirst (λ s. s) };

    ghost remaining = { item_count (λ s. s) };

    fn next(&mut self) -> Option<(u32, u32)> {
        let pair = self.rest.next_from(FIRST_DESCRIPTOR)?;
        let _ = self.rest.take(pair.0);
        Some(pair)
    }
}
