//! Texts of at most 107 bytes.
ghost use Rattle.std.specs.Prelude.{◌≡◌, ◌+◌, ◌≤◌, ◌++◌, length};

use std::marker::Model;

/// The most bytes of a short text.
pub const TEXT_BYTES: usize = 107;

/// A text of at most 107 bytes, in a value of fixed size.
#[derive(Clone, Copy, Debug)]
pub struct ShortText {
    bytes: [u8; TEXT_BYTES],
    len: usize,
}

impl Model for ShortText {
    ghost use Rattle.std.specs.Prelude.{◌≡◌, ◌++◌, ◌-◌, ℕ, List, take, length, replicate};
    ghost use Rattle.listener_set.specs.Padded.{IsPadded};
    ghost use Rattle.listener_set.specs.PaddedLemmas.{padded_again, length-padded};

    ghost Value = { List ℕ };

    ghost view = { λ t. take t.len t.bytes };

    ghost invariant = { λ t. IsPadded 107 0 t.bytes t.len };

    ghost inverse = { λ text. record { bytes = text ++ replicate (107 - length text) 0; len = length text } };

    ghost inverse_ok = { λ t h i. record { bytes = padded_again h i; len = length-padded h i } };
}

impl PartialEq for ShortText {
    ghost use Rattle.std.specs.Cmp.{partial_equiv_from_equiv};
    ghost use Rattle.std.specs.Cmp.Lexicographic.{nat_list_eq_equiv};
    ghost use Rattle.std.specs.Prelude.{bytes_eq};

    ghost eq = { bytes_eq };

    ghost laws = { partial_equiv_from_equiv nat_list_eq_equiv };

    fn eq(&self, other: &Self) -> bool {
        self.bytes() == other.bytes()
    }
}

impl Eq for ShortText {
    ghost use Rattle.std.specs.Cmp.Lexicographic.{nat_list_eq_equiv};

    ghost laws = { nat_list_eq_equiv };
}

impl ShortText {
    /// A text that fits.
    pub fn new(text: &[u8]) -> Self
        requires { length text.now ≤ TEXT_BYTES }
        ensures { result ≡ text.now }
    {
        let mut bytes = [0; TEXT_BYTES];
        let len = text.len();
        bytes[..len].copy_from_slice(text);
        ShortText { bytes, len }
    }

    /// The bytes of the text.
    pub fn bytes(&self) -> &[u8]
        ensures text { result.now ≡ self.now }
        ensures fits { length self.now ≤ TEXT_BYTES }
    {
        &self.bytes[..self.len]
    }

    /// The text with another behind it.
    pub fn followed_by(&self, suffix: &[u8]) -> Self
        requires { length self.now + length suffix.now ≤ TEXT_BYTES }
        ensures { result ≡ self.now ++ suffix.now }
    {
        let mut bytes = self.bytes;
        let end = self.len + suffix.len();
        bytes[self.len..end].copy_from_slice(suffix);
        Self::new(&bytes[..end])
    }
}
