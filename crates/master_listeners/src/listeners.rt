//! The listeners of a running master.
ghost use Rattle.std.specs.Prelude.{◌≡◌, ◌<◌, ◌≤◌, ◌↔◌, ◌+◌, ◌++◌, ◌∷◌, [], false, length, map, insert, IsTrue, slice_get};
ghost use Rattle.vocabulary.specs.Settings.{listeners_from};
ghost use Rattle.definitions.specs.Table.{Address as AddressText};
ghost use Rattle.definitions.specs.After.{listener_at, listens_on, opened_from, still_wanted, with_added, reloaded};
ghost use Rattle.definitions.specs.After.{upgraded, descriptors_at};
ghost use Rattle.master_listeners.specs.Listeners.{AreListed, is_above, only_under};

use listener_set::{Address, DescriptorSet, FIRST_DESCRIPTOR, ListenerSet, MOST_DESCRIPTORS};
use std::marker::Model;
use vocabulary::Listener;

/// The listeners of a running master: at most 64, with distinct addresses, in ascending descriptors from 3 to 66.
#[derive(Clone, Copy, Debug)]
pub struct Listeners {
    items: [Listener; 64],
    len: usize,
}

impl Model for Listeners {
    ghost use Rattle.std.specs.Prelude.{◌-◌, ◌++◌, List, take, length, replicate};
    ghost use Rattle.vocabulary.specs.declared.table.Listener.{Listener as Listed};
    ghost use Rattle.master_listeners.specs.Listeners.{AreKept, blank_listener};
    ghost use Rattle.listener_set.specs.PaddedLemmas.{padded_again, length-padded};

    ghost Value = { List Listed };

    ghost view = { λ a. take a.len a.items };

    ghost invariant = { λ a. AreKept a.items a.len };

    ghost inverse = { λ ls. record { items = ls ++ replicate (64 - length ls) blank_listener; len = length ls } };

    ghost inverse_ok = { λ a h i. record { items = padded_again h.padded i; len = length-padded h.padded i } };
}

impl Listeners {
    /// No listeners.
    pub fn new() -> Self
        ensures { result ≡ [] }
    {
        let blank = Listener {
            descriptor: FIRST_DESCRIPTOR,
            address: Address::plain(),
        };
        Listeners {
            items: [blank; 64],
            len: 0,
        }
    }

    /// The listeners in ascending descriptors.
    pub fn as_slice(&self) -> &[Listener]
        ensures items { result.now ≡ self.now }
        ensures most { length self.now ≤ MOST_DESCRIPTORS }
        ensures listed { AreListed self.now }
    {
        &self.items[..self.len]
    }

    /// Whether an address is listened on.
    pub fn holds(&self, address: &Address) -> bool
        ensures { result ≡ listens_on self.now address.now }
    {
        self.as_slice()
            .iter()
            .any(|listener| listener.address == *address)
    }

    /// Puts a listener at a place; those from there on move one place further.
    fn insert(&mut self, place: usize, listener: &Listener)
        requires place { place ≤ length self.old }
        requires room { length self.old < MOST_DESCRIPTORS }
        requires listed { AreListed (insert self.old place listener.now) }
        ensures { self.new ≡ insert self.old place listener.now }
    {
        self.items[self.len] = *listener;
        self.len += 1;
        let len = self.len;
        let items = &mut self.items[..];
        items[place..len].rotate_right(1);
    }

    /// Whether each descriptor is below another.
    pub fn are_below(&self, descriptor: u32) -> bool
        ensures value { result ≡ is_above descriptor self.now }
        ensures listed { AreListed self.now }
    {
        self.as_slice()
            .iter()
            .all(|listener| listener.descriptor < descriptor)
    }

    /// Puts a listener behind the others.
    pub fn push(&mut self, listener: &Listener)
        requires room { length self.old < MOST_DESCRIPTORS }
        requires listed { AreListed (self.old ++ listener.now ∷ []) }
        ensures { self.new ≡ self.old ++ listener.now ∷ [] }
    {
        self.insert(self.len, listener);
    }

    /// Addresses in order, from descriptor 3 on.
    pub fn from_set(addresses: &ListenerSet) -> Self
        ensures { result ≡ listeners_from FIRST_DESCRIPTOR addresses.now }
    {
        let mut listeners = Self::new();
        let all = addresses.as_slice();
        for (place, address) in all.iter().enumerate() {
            listeners.push(&nth(place, address));
        }
        listeners
    }

    /// The addresses, in the order of their descriptors.
    pub fn addresses(&self) -> ListenerSet
        ensures { result ≡ map (λ l. l.address) self.now }
    {
        let mut addresses = ListenerSet::new();
        let all = self.as_slice();
        for listener in all {
            let _ = addresses.add(&listener.address);
        }
        addresses
    }

    /// The listeners whose addresses are in the set; the others are closed.
    pub fn kept(&self, addresses: &ListenerSet) -> Self
        ensures { result ≡ still_wanted addresses.now self.now }
    {
        let mut listeners = Self::new();
        let all = self.as_slice();
        for listener in all {
            if addresses.holds(&listener.address) {
                listeners.push(listener);
            }
        }
        listeners
    }

    /// The listeners whose descriptors are in the set.
    pub fn only(&self, set: &DescriptorSet) -> Self
        ensures { result ≡ only_under set.now self.now }
    {
        let mut listeners = Self::new();
        let all = self.as_slice();
        for listener in all {
            if set.has(listener.descriptor) {
                listeners.push(listener);
            }
        }
        listeners
    }

    /// The descriptors of the listeners whose addresses a list has.
    pub fn descriptors_at(&self, addresses: &[Address]) -> DescriptorSet
        ensures { result ≡ descriptors_at self.now addresses.now }
    {
        let mut set = DescriptorSet::none();
        let all = self.as_slice();
        for listener in all {
            if addresses.contains(&listener.address) {
                set.add(listener.descriptor);
            }
        }
        set
    }

    /// The place of the first gap: the descriptors before it are 3, 4 and so on.
    fn first_gap(&self) -> usize
        ensures within { result ≤ length self.now }
        ensures listed { AreListed self.now }
        ensures gap { (a : AddressText)
            → opened_from FIRST_DESCRIPTOR a self.now ≡ insert self.now result (listener_at (FIRST_DESCRIPTOR + result) a) }
    {
        let all = self.as_slice();
        for (place, listener) in all.iter().enumerate() {
            if listener.descriptor as usize != FIRST_DESCRIPTOR as usize + place {
                return place;
            }
        }
        all.len()
    }

    /// Opens an address that is not listened on yet, at the lowest free descriptor.
    pub fn open(&mut self, address: &Address)
        requires new { listens_on self.old address.now ≡ false }
        requires room { length self.old < MOST_DESCRIPTORS }
        ensures { self.new ≡ opened_from FIRST_DESCRIPTOR address.now self.old }
    {
        let place = self.first_gap();
        self.insert(place, &nth(place, address));
    }

    /// Opens the addresses of the set that are not listened on yet, in its order. None where a process would have
    /// more than 64 descriptors.
    pub fn opened(&self, addresses: &ListenerSet) -> Option<Self>
        ensures { result ≡ with_added addresses.now self.now }
    {
        let mut listeners = *self;
        let all = addresses.as_slice();
        for address in all {
            if !listeners.holds(address) {
                if listeners.as_slice().len() == MOST_DESCRIPTORS {
                    return None;
                }
                listeners.open(address);
            }
        }
        Some(listeners)
    }

    /// The listeners after a reload: it opens the addresses that are new, and closes at its end those that the set
    /// lacks. None where a process would have more than 64 descriptors.
    pub fn reloaded(&self, addresses: &ListenerSet) -> Option<Self>
        ensures { result ≡ reloaded addresses.now self.now }
    {
        let opened = self.opened(addresses)?;
        Some(opened.kept(addresses))
    }

    /// The listeners after an upgrade: the new master closes the addresses that the set lacks, and then opens those
    /// that are new. None where a process would have more than 64 descriptors.
    pub fn upgraded(&self, addresses: &ListenerSet) -> Option<Self>
        ensures { result ≡ upgraded addresses.now self.now }
    {
        self.kept(addresses).opened(addresses)
    }
}

/// An address at the place-th descriptor, counted from 0.
fn nth(place: usize, address: &Address) -> Listener
    requires { place < MOST_DESCRIPTORS }
    ensures { result ≡ listener_at (FIRST_DESCRIPTOR + place) address.now }
{
    Listener {
        descriptor: FIRST_DESCRIPTOR + place as u32,
        address: *address,
    }
}
