//! Sets of descriptors.
ghost use Rattle.std.specs.Prelude.{◌≡◌, ◌↔◌, [], IsTrue, IsSome, IfSome};
ghost use Rattle.std.specs.List.{All};
ghost use Rattle.listener_set.specs.Numbers.{is_in, with_number};
ghost use Rattle.listener_set.specs.Descriptors.{IsDescriptor};
ghost use Rattle.listener_set.specs.DescriptorSets.{AreDescriptorNumbers};

use crate::descriptors::{FIRST_DESCRIPTOR, PAST_DESCRIPTORS};
use crate::numbers::Numbers;
use std::marker::Model;

/// A set of descriptors of listeners, each from 3 to 66, in ascending order.
#[derive(Clone, Copy, Debug)]
pub struct DescriptorSet {
    // A bit for each descriptor, from the lowest on.
    word: u64,
}

impl Model for DescriptorSet {
    ghost use Rattle.std.specs.Prelude.{◌<◌, ◌^◌, List, ℕ};
    ghost use Rattle.listener_set.specs.DescriptorSets.{descriptors_in, word_of};
    ghost use Rattle.listener_set.specs.DescriptorSetLemmas.{word_again};

    ghost Value = { List ℕ };

    ghost view = { λ s. descriptors_in s.word };

    ghost invariant = { λ s. s.word < 2 ^ 64 };

    ghost inverse = { λ fds. record { word = word_of fds } };

    ghost inverse_ok = { λ s h i. record { word = word_again s.word h i } };
}

/// Whether a listener can stand at the number.
fn is_descriptor(number: u32) -> bool
    ensures { IsTrue result ↔ IsDescriptor number }
{
    (FIRST_DESCRIPTOR..PAST_DESCRIPTORS).contains(&number)
}

impl DescriptorSet {
    /// No descriptors.
    pub fn none() -> Self
        ensures { result ≡ [] }
    {
        DescriptorSet { word: 0 }
    }

    /// Puts a descriptor in.
    pub fn add(&mut self, descriptor: u32)
        requires { IsDescriptor descriptor }
        ensures { self.new ≡ with_number self.old descriptor }
    {
        self.word |= 1 << (descriptor - FIRST_DESCRIPTOR);
    }

    /// Whether the set has a descriptor.
    pub fn has(&self, descriptor: u32) -> bool
        requires { IsDescriptor descriptor }
        ensures { result ≡ is_in self.now descriptor }
    {
        (self.word >> (descriptor - FIRST_DESCRIPTOR)) & 1 == 1
    }

    /// Whether the set has no descriptor.
    pub fn is_empty(&self) -> bool
        ensures { IsTrue result ↔ (self.now ≡ []) }
    {
        self.word == 0
    }

    /// The set of these numbers, where each of them is a descriptor.
    pub fn of(numbers: &Numbers) -> Option<DescriptorSet>
        ensures some { IfSome result (λ set. set ≡ numbers.now) }
        ensures none { IsSome result ↔ All IsDescriptor numbers.now }
    {
        let mut set = Self::none();
        for number in numbers.iter() {
            if !is_descriptor(number) {
                return None;
            }
            set.add(number);
        }
        Some(set)
    }

    /// The descriptors as a set of numbers.
    pub fn numbers(&self) -> Numbers
        ensures numbers { result ≡ self.now }
        ensures descriptors { AreDescriptorNumbers self.now }
    {
        let _ = &self.word;
        let mut numbers = Numbers::none();
        for descriptor in FIRST_DESCRIPTOR..PAST_DESCRIPTORS {
            if self.has(descriptor) {
                numbers.add(descriptor);
            }
        }
        numbers
    }
}

impl PartialEq for DescriptorSet {
    ghost use Rattle.std.specs.Cmp.{partial_equiv_from_equiv};
    ghost use Rattle.std.specs.Cmp.Lexicographic.{nat_list_eq_equiv};
    ghost use Rattle.std.specs.Prelude.{bytes_eq};

    ghost eq = { bytes_eq };

    ghost laws = { partial_equiv_from_equiv nat_list_eq_equiv };

    fn eq(&self, other: &Self) -> bool {
        self.word == other.word
    }
}

impl Eq for DescriptorSet {
    ghost use Rattle.std.specs.Cmp.Lexicographic.{nat_list_eq_equiv};

    ghost laws = { nat_list_eq_equiv };
}
