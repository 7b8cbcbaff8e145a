//! Sets of worker numbers.
ghost use Rattle.std.specs.Prelude.{◌≡◌, ◌+◌, ◌<◌, ◌≤◌, ◌↔◌, ℕ, [], length, IsTrue, IfSome};
ghost use Rattle.listener_set.specs.Numbers.{numbers_below, is_in, with_number, without_number, lacks, first, last, first_from, AreNumbers};
ghost use Rattle.std.specs.Int.{bit_at};

use std::marker::Model;

/// Worker numbers are below this.
pub const WORKER_LIMIT: u32 = 1024;

// The bits of a word, and how many words have a bit for each number.
const BITS: u32 = u64::BITS;

const WORDS: usize = (WORKER_LIMIT / BITS) as usize;

/// A set of worker numbers, each from 0 to 1023, in ascending order.
#[derive(Clone, Copy, Debug)]
pub struct Numbers {
    words: [u64; WORDS],
}

impl Model for Numbers {
    ghost use Rattle.std.specs.Prelude.{List, ℕ};
    ghost use Rattle.listener_set.specs.NumberWords.{numbers_of, words_of, AreWords};
    ghost use Rattle.listener_set.specs.NumberWordsLemmas.{words_again};

    ghost Value = { List ℕ };

    ghost view = { λ s. numbers_of s.words };

    ghost invariant = { λ s. AreWords s.words };

    ghost inverse = { λ ns. record { words = words_of ns } };

    ghost inverse_ok = { λ s h i. record { words = words_again s.words h i } };
}

impl Numbers {
    /// No numbers.
    pub fn none() -> Self
        ensures { result ≡ [] }
    {
        Numbers { words: [0; WORDS] }
    }

    /// The numbers from 0 to `n` less 1.
    pub fn below(n: u32) -> Self
        requires { n ≤ WORKER_LIMIT }
        ensures { result ≡ numbers_below n }
    {
        let mut all = Self::none();
        for nr in 0..n {
            all.add(nr);
        }
        all
    }

    /// Puts a number in.
    pub fn add(&mut self, nr: u32)
        requires { nr < WORKER_LIMIT }
        ensures { self.new ≡ with_number self.old nr }
    {
        self.words[(nr / BITS) as usize] |= 1 << (nr % BITS);
    }

    /// Takes a number out.
    pub fn remove(&mut self, nr: u32)
        requires { nr < WORKER_LIMIT }
        ensures { self.new ≡ without_number self.old nr }
    {
        self.words[(nr / BITS) as usize] &= !(1 << (nr % BITS));
    }

    /// Whether the set has a number.
    pub fn has(&self, nr: u32) -> bool
        requires { nr < WORKER_LIMIT }
        ensures { result ≡ is_in self.now nr }
    {
        (self.words[(nr / BITS) as usize] >> (nr % BITS)) & 1 == 1
    }

    /// How many numbers the set has.
    pub fn len(&self) -> usize
        ensures count { result ≡ length self.now }
        ensures most { length self.now ≤ WORKER_LIMIT }
        ensures numbers { AreNumbers WORKER_LIMIT self.now }
    {
        let mut count = 0;
        for word in &self.words {
            count += word.count_ones() as usize;
        }
        count
    }

    /// Whether the set has no number.
    pub fn is_empty(&self) -> bool
        ensures { IsTrue result ↔ (self.now ≡ []) }
    {
        self.lowest().is_none()
    }

    /// The lowest number of the set.
    pub fn lowest(&self) -> Option<u32>
        ensures lowest { result ≡ first self.now }
        ensures below { IfSome result (λ nr. nr < WORKER_LIMIT) }
        ensures numbers { AreNumbers WORKER_LIMIT self.now }
    {
        self.next_from(0)
    }

    /// The lowest number of the set that is at least `bound`.
    pub fn next_from(&self, bound: u32) -> Option<u32>
        ensures lowest { result ≡ first_from bound self.now }
        ensures below { IfSome result (λ nr. nr < WORKER_LIMIT) }
        ensures numbers { AreNumbers WORKER_LIMIT self.now }
    {
        for place in (bound / BITS)..WORDS as u32 {
            let word = word_from(self.words[place as usize], BITS * place, bound);
            if word != 0 {
                return Some(BITS * place + word.trailing_zeros());
            }
        }
        None
    }

    /// The highest number of the set.
    pub fn highest(&self) -> Option<u32>
        ensures highest { result ≡ last self.now }
        ensures below { IfSome result (λ nr. nr < WORKER_LIMIT) }
        ensures numbers { AreNumbers WORKER_LIMIT self.now }
    {
        for place in (0..WORDS).rev() {
            let word = self.words[place];
            if word != 0 {
                return Some(BITS * place as u32 + (BITS - 1 - word.leading_zeros()));
            }
        }
        None
    }

    /// The numbers that the other set lacks.
    pub fn minus(&self, other: &Numbers) -> Self
        ensures { result ≡ lacks self.now other.now }
    {
        let mut words = self.words;
        for place in 0..WORDS {
            words[place] &= !other.words[place];
        }
        Numbers { words }
    }

    /// The numbers of the set, upwards from the front and downwards from the back.
    pub fn iter(&self) -> Members
        ensures members { result ≡ self.now }
        ensures numbers { AreNumbers WORKER_LIMIT self.now }
    {
        let _ = &self.words;
        Members { rest: *self }
    }
}

/// The bits of a word whose numbers are at least `bound`, where the word's first number is `first`.
fn word_from(word: u64, first: u32, bound: u32) -> u64
    requires { bound < first + BITS }
    ensures kept { (i : ℕ) → i < BITS → bound ≤ first + i → bit_at result i ≡ bit_at word i }
    ensures cut { (i : ℕ) → first + i < bound → bit_at result i ≡ 0 }
{
    if bound <= first {
        word
    } else {
        word & (u64::MAX << (bound - first))
    }
}

impl PartialEq for Numbers {
    ghost use Rattle.std.specs.Cmp.{partial_equiv_from_equiv};
    ghost use Rattle.std.specs.Cmp.Lexicographic.{nat_list_eq_equiv};
    ghost use Rattle.std.specs.Prelude.{bytes_eq};

    ghost eq = { bytes_eq };

    ghost laws = { partial_equiv_from_equiv nat_list_eq_equiv };

    fn eq(&self, other: &Self) -> bool {
        self.words == other.words
    }
}

impl Eq for Numbers {
    ghost use Rattle.std.specs.Cmp.Lexicographic.{nat_list_eq_equiv};

    ghost laws = { nat_list_eq_equiv };
}

/// The numbers of a set that are still to come, upwards from the front and downwards from the back.
#[derive(Clone, Debug, Drop)]
pub struct Members {
    rest: Numbers,
}

impl Model for Members {
    ghost use Rattle.std.specs.Prelude.{List, ℕ};

    ghost Value = { List ℕ };

    ghost view = { λ s. s.rest };
}

impl Iterator for Members {
    type Item = u32;

    ghost use Rattle.std.specs.Iterator.{YieldsFirst, item_count};

    ghost next_gives = { YieldsFirst (λ s. s) };

    ghost remaining = { item_count (λ s. s) };

    fn next(&mut self) -> Option<u32> {
        let nr = self.rest.lowest()?;
        self.rest.remove(nr);
        Some(nr)
    }
}

impl DoubleEndedIterator for Members {
    ghost use Rattle.std.specs.Iterator.{YieldsLast};

    ghost next_back_gives = { YieldsLast (λ s. s) };

    fn next_back(&mut self) -> Option<u32> {
        let nr = self.rest.highest()?;
        self.rest.remove(nr);
        Some(nr)
    }
}
