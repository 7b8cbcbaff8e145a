//! The listeners of a configuration.
ghost use Rattle.std.specs.Prelude.{◌≡◌, ◌<◌, ◌≤◌, ◌↔◌, ◌++◌, ◌∷◌, [], not, length, filter, IsTrue, OnOk, OnErr, IsErrOf, Contains, slice_get};
ghost use Rattle.listener_set.specs.AddressList.{AreDistinct, has};

use crate::Address;
use std::error::Error;
use std::fmt;
use std::marker::Model;

/// The most listeners of a configuration.
pub const MOST_LISTENERS: usize = 64;

/// Why an address is not taken up.
#[derive(Clone, Copy, Debug, PartialEq, Eq)]
pub enum ListenerRefusal {
    /// A6: the address is there already.
    Doubled,
    /// A7: there are 64 addresses already.
    TooMany,
}

impl ListenerRefusal {
    ghost use Rattle.listener_set.specs.Codes.{listener_code};

    /// The code of the rule, as it is printed.
    pub fn code(&self) -> &'static str
        ensures { result.now ≡ listener_code self.now }
    {
        match self {
            ListenerRefusal::Doubled => "A6",
            ListenerRefusal::TooMany => "A7",
        }
    }
}

/// Printed as its code.
impl fmt::Display for ListenerRefusal {
    ghost use Rattle.std.specs.Prelude.{Some};
    ghost use Rattle.listener_set.specs.Codes.{listener_code};

    ghost output = { λ refusal. Some (listener_code refusal) };

    fn fmt<W: fmt::Write>(&self, f: &mut fmt::Formatter<W>) -> fmt::Result {
        f.write_str(self.code())
    }
}

impl Error for ListenerRefusal {}

/// The listeners of a configuration: at most 64 distinct addresses, in order.
#[derive(Clone, Copy, Debug)]
pub struct ListenerSet {
    items: [Address; MOST_LISTENERS],
    len: usize,
}

impl Model for ListenerSet {
    ghost use Rattle.std.specs.Prelude.{◌-◌, ◌++◌, ℕ, List, take, length, replicate};
    ghost use Rattle.listener_set.specs.AddressList.{AreKept, blank};
    ghost use Rattle.listener_set.specs.PaddedLemmas.{padded_again, length-padded};

    ghost Value = { List (List ℕ) };

    ghost view = { λ a. take a.len a.items };

    ghost invariant = { λ a. AreKept a.items a.len };

    ghost inverse = { λ xs. record { items = xs ++ replicate (64 - length xs) blank; len = length xs } };

    ghost inverse_ok = { λ a h i. record { items = padded_again h.padded i; len = length-padded h.padded i } };
}

impl Default for ListenerSet {
    ghost is_default = { λ set. set ≡ [] };

    fn default() -> Self {
        Self::new()
    }
}

impl ListenerSet {
    /// No listeners.
    pub fn new() -> Self
        ensures { result ≡ [] }
    {
        ListenerSet {
            items: [Address::plain(); MOST_LISTENERS],
            len: 0,
        }
    }

    /// How many there are.
    pub fn len(&self) -> usize
        ensures count { result ≡ length self.now }
        ensures most { length self.now ≤ MOST_LISTENERS }
        ensures distinct { AreDistinct self.now }
    {
        self.len
    }

    /// Whether there is none.
    pub fn is_empty(&self) -> bool
        ensures { IsTrue result ↔ (self.now ≡ []) }
    {
        self.len == 0
    }

    /// The addresses in order.
    pub fn as_slice(&self) -> &[Address]
        ensures items { result.now ≡ self.now }
        ensures most { length self.now ≤ MOST_LISTENERS }
        ensures distinct { AreDistinct self.now }
    {
        &self.items[..self.len]
    }

    /// The address at a place, counted from 0.
    pub fn get(&self, place: usize) -> Option<Address>
        ensures { result ≡ slice_get self.now place }
    {
        if place < self.len {
            Some(self.items[place])
        } else {
            None
        }
    }

    /// Whether an address is there.
    pub fn holds(&self, address: &Address) -> bool
        ensures value { result ≡ has self.now address.now }
        ensures held { IsTrue result ↔ Contains self.now address.now }
    {
        self.as_slice().contains(address)
    }

    /// Puts an address at the end. `Doubled` where it is there already, even where 64 are there,
    /// and `TooMany` where 64 others are.
    pub fn add(&mut self, address: &Address) -> Result<(), ListenerRefusal>
        ensures ok { OnOk result (self.new ≡ self.old ++ address.now ∷ []) }
        ensures doubled { IsErrOf result ListenerRefusal.Doubled ↔ Contains self.old address.now }
        ensures too_many { IsErrOf result ListenerRefusal.TooMany
            ↔ ((length self.old ≡ MOST_LISTENERS) × ¬ Contains self.old address.now) }
        ensures err { OnErr result (self.new ≡ self.old) }
    {
        if self.holds(address) {
            return Err(ListenerRefusal::Doubled);
        }
        if self.len == MOST_LISTENERS {
            return Err(ListenerRefusal::TooMany);
        }
        self.push(address);
        Ok(())
    }

    fn push(&mut self, address: &Address)
        requires new { ¬ Contains self.old address.now }
        requires room { length self.old < MOST_LISTENERS }
        ensures { self.new ≡ self.old ++ address.now ∷ [] }
    {
        self.items[self.len] = *address;
        self.len += 1;
    }

    /// The addresses that the other set lacks, in this set's order.
    pub fn only_in(&self, other: &ListenerSet) -> Self
        ensures { result ≡ filter (λ a. not (has other.now a)) self.now }
    {
        let mut rest = Self::new();
        let all = self.as_slice();
        for address in all {
            if !other.holds(address) {
                rest.push(address);
            }
        }
        rest
    }

    /// The addresses that the other set has too, in this set's order.
    pub fn common(&self, other: &ListenerSet) -> Self
        ensures { result ≡ filter (has other.now) self.now }
    {
        let mut both = Self::new();
        let all = self.as_slice();
        for address in all {
            if other.holds(address) {
                both.push(address);
            }
        }
        both
    }
}
