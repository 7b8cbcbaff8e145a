//! How many workers each group lacks.
ghost use Rattle.std.specs.Prelude.{◌≡◌, ◌≤◌, ◌++◌, ◌∷◌, [], length, nat_lt, if◌then◌else◌};
ghost use Rattle.std.specs.List.{sum};
ghost use Rattle.worker_groups.specs.Crews.{shortfalls_of};

use crate::{Groups, MOST_GROUPS};
use listener_set::Numbers;
use std::marker::Model;

/// How many workers each group lacks: from 1 to 16 counts.
#[derive(Clone, Copy, Debug)]
pub struct Shortfalls {
    counts: [u32; MOST_GROUPS],
    len: usize,
}

impl Model for Shortfalls {
    ghost use Rattle.std.specs.Prelude.{◌-◌, ◌++◌, List, ℕ, take, length, replicate};
    ghost use Rattle.listener_set.specs.PaddedLemmas.{padded_again, length-padded};
    ghost use Rattle.worker_groups.specs.Kept.{AreCounts};

    ghost Value = { List ℕ };

    ghost view = { λ s. take s.len s.counts };

    ghost invariant = { λ s. AreCounts s.counts s.len };

    ghost inverse = { λ ns. record { counts = ns ++ replicate (16 - length ns) 0; len = length ns } };

    ghost inverse_ok = { λ s h i. record { counts = padded_again h.padded i; len = length-padded h.padded i } };
}

impl Shortfalls {
    /// The count of a single group.
    pub fn one(count: u32) -> Self
        ensures { result ≡ count ∷ [] }
    {
        let mut counts = [0; MOST_GROUPS];
        counts[0] = count;
        Shortfalls { counts, len: 1 }
    }

    /// How many of the numbers that are lacking are of each group.
    pub fn of(groups: &Groups, lacking: &Numbers) -> Self
        ensures { result ≡ shortfalls_of groups.now lacking.now }
    {
        let len = groups.as_slice().len();
        let mut counts = [0; MOST_GROUPS];
        for number in lacking.iter() {
            counts[groups.group_of(number)] += 1;
        }
        Shortfalls { counts, len }
    }

    /// The counts in the order of the groups.
    pub fn as_slice(&self) -> &[u32]
        ensures items { result.now ≡ self.now }
        ensures some { 1 ≤ length self.now }
        ensures most { length self.now ≤ MOST_GROUPS }
    {
        &self.counts[..self.len]
    }

    /// How many workers are lacking in all.
    pub fn total(&self) -> u64
        ensures { result ≡ sum self.now }
    {
        let mut total = 0;
        let counts = self.as_slice();
        for count in counts {
            total += u64::from(*count);
        }
        total
    }

    /// Puts a count behind the others. Where there are 16 already it is not taken, and nothing changes.
    pub fn add(&mut self, count: u32) -> bool
        ensures taken { result ≡ nat_lt (length self.old) MOST_GROUPS }
        ensures counts { self.new ≡ (if nat_lt (length self.old) MOST_GROUPS then self.old ++ count ∷ [] else self.old) }
    {
        if self.len == MOST_GROUPS {
            return false;
        }
        self.counts[self.len] = count;
        self.len += 1;
        true
    }
}

impl PartialEq for Shortfalls {
    ghost use Rattle.std.specs.Cmp.{partial_equiv_from_equiv};
    ghost use Rattle.std.specs.Cmp.Lexicographic.{nat_list_eq_equiv};
    ghost use Rattle.std.specs.Prelude.{bytes_eq};

    ghost eq = { bytes_eq };

    ghost laws = { partial_equiv_from_equiv nat_list_eq_equiv };

    fn eq(&self, other: &Self) -> bool {
        self.as_slice() == other.as_slice()
    }
}

impl Eq for Shortfalls {
    ghost use Rattle.std.specs.Cmp.Lexicographic.{nat_list_eq_equiv};

    ghost laws = { nat_list_eq_equiv };
}
