//! Texts cut in two.
ghost use Rattle.std.specs.Prelude.{◌≡◌, ◌==◌, None, Some, MatchOption, option_map, position};
ghost use Rattle.std.specs.List.{before_first, after_first};
ghost use Rattle.plain_text.specs.Cuts.{cut, after_prefix};

use memchr::memchr;

/// Where the first such byte stands.
#[tactic(auto, using(crate::proofs::FirstBytes::first_byte))]
fn first(text: &[u8], byte: u8) -> Option<usize>
    ensures { result ≡ position (λ c. c == byte) text.now }
{
    memchr(byte, text)
}

/// What stands before the first such byte, and what stands behind it; none where there is no such
/// byte.
pub fn cut(text: &[u8], byte: u8) -> Option<(&[u8], &[u8])>
    ensures { option_map (λ p. (p.0.now, p.1.now)) result ≡ cut byte text.now }
{
    let place = first(text, byte)?;
    Some((&text[..place], &text[place + 1..]))
}

/// What stands before the first such byte, and what stands behind it: all of the text and nothing
/// where there is no such byte.
pub fn around(text: &[u8], byte: u8) -> (&[u8], &[u8])
    ensures before { result.0.now ≡ before_first (λ c. c == byte) text.now }
    ensures behind { result.1.now ≡ after_first (λ c. c == byte) text.now }
{
    match cut(text, byte) {
        Some(parts) => parts,
        None => (text, &[]),
    }
}

/// What follows a prefix; none where the text does not begin with it.
pub fn after_prefix<'a>(text: &'a [u8], prefix: &[u8]) -> Option<&'a [u8]>
    ensures { MatchOption result (after_prefix prefix.now text.now ≡ None) (λ rest. after_prefix prefix.now text.now ≡ Some rest.now) }
{
    text.strip_prefix(prefix)
}
