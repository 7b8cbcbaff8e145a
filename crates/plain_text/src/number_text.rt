//! Numbers as texts.
ghost use Rattle.std.specs.Prelude.{◌≡◌, ◌≤◌, ◌<◌, ◌^◌, ◌++◌, ℕ, length, IfSome, IfOk, Some};
ghost use Rattle.std.specs.Fmt.{decimal};
ghost use Rattle.plain_text.specs.NumberText.{number_in, number64_of, number_within, count_of};
ghost use Rattle.plain_text.specs.Kept.{kept};

use crate::sink::Sink;
use itoa::Buffer;

/// The number from 0 to 18,446,744,073,709,551,615 that a text is: decimal digits without leading
/// zeros, and zero is `0`.
pub fn read_number64(text: &[u8]) -> Option<u64>
    ensures exact { result ≡ number64_of text.now }

    // What is read is the number as it is printed, and each number is read as it is printed.
    ensures found { IfSome result (λ n. (text.now ≡ decimal n) × (n < 2 ^ 64)) }
    ensures only { (n : ℕ) → n < 2 ^ 64 → text.now ≡ decimal n → result ≡ Some n }
{
    digits_value(text)
}

fn digits_value(text: &[u8]) -> Option<u64>
    ensures { result ≡ number64_of text.now }
{
    if text.is_empty() || (text.len() > 1 && text[0] == b'0') {
        return None;
    }
    let mut number: u64 = 0;
    for byte in text {
        if !byte.is_ascii_digit() {
            return None;
        }
        number = number
            .checked_mul(10)?
            .checked_add(u64::from(*byte - b'0'))?;
    }
    Some(number)
}

/// The number from 0 to 4,294,967,295 that a text is: decimal digits without leading zeros, and
/// zero is `0`.
pub fn read_number(text: &[u8]) -> Option<u32>
    ensures exact { result ≡ number_in text.now }

    // What is read is the number as it is printed, and each number is read as it is printed.
    ensures found { IfSome result (λ n. (text.now ≡ decimal n) × (n < 2 ^ 32)) }
    ensures only { (n : ℕ) → n < 2 ^ 32 → text.now ≡ decimal n → result ≡ Some n }
{
    u32::try_from(read_number64(text)?).ok()
}

/// The number from `least` to `most` that a text is: decimal digits without leading zeros, and zero
/// is `0`.
pub fn number_within(text: &[u8], least: u32, most: u32) -> Option<u32>
    ensures exact { result ≡ number_within least most text.now }

    // What is read is the number as it is printed, and each number within is read as it is printed.
    ensures found { IfSome result (λ n. (text.now ≡ decimal n) × (least ≤ n) × (n ≤ most)) }
    ensures only { (n : ℕ) → least ≤ n → n ≤ most → text.now ≡ decimal n → result ≡ Some n }
{
    let number = read_number(text)?;
    if least <= number && number <= most {
        Some(number)
    } else {
        None
    }
}

/// The number from 1 to 4,294,967,295 that a text is: decimal digits without leading zeros.
pub fn read_count(text: &[u8]) -> Option<u32>
    ensures { result ≡ count_of text.now }
{
    number_within(text, 1, u32::MAX)
}

/// Puts a number in decimal digits behind what was written.
#[tactic(auto, using(crate::proofs::KeptTexts::short_decimal))]
pub fn write_number<S: Sink>(out: &mut S, number: u64) -> Result<(), S::Refusal>
    ensures text { IfOk result (λ _. S.text out.new ≡ kept S.most (S.text out.old ++ decimal number)) }
    ensures short { length (decimal number) ≤ 20 }
{
    let mut buffer = Buffer::new();
    out.put(buffer.format(number).as_bytes())
}
