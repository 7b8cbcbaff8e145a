//! Codes of refusals, read.
ghost use Rattle.std.specs.Prelude.{◌≡◌, IfOk, IsTrue};
ghost use Rattle.std.specs.List.{list_all};
ghost use Rattle.std.specs.Char.{is_ascii_digit};
ghost use Rattle.transcript.specs.Codes.{is_numeral, is_lettered, is_key, is_detail, are_details, is_code};

use plain_text::cut;
use std::alloc::{AllocError, Global};
use word_runner::CodeText;

fn are_digits(text: &[u8]) -> bool
    ensures { result ≡ list_all is_ascii_digit text.now }
{
    text.iter().all(|byte| byte.is_ascii_digit())
}

/// A number of any size, without leading zeros.
fn is_numeral(text: &[u8]) -> bool
    ensures { result ≡ is_numeral text.now }
{
    match *text {
        [] => false,
        [digit] => digit.is_ascii_digit(),
        [first, ..] => first != b'0' && are_digits(text),
    }
}

/// A capital letter and a number.
fn is_lettered(text: &[u8]) -> bool
    ensures { result ≡ is_lettered text.now }
{
    match text.split_first() {
        Some((letter, number)) => letter.is_ascii_uppercase() && is_numeral(number),
        None => false,
    }
}

/// The key of a configuration.
fn is_key(text: &[u8]) -> bool
    ensures { result ≡ is_key text.now }
{
    text == b"command".as_slice()
        || text == b"groups".as_slice()
        || text == b"listeners".as_slice()
        || text == b"pid".as_slice()
        || text == b"retries".as_slice()
        || text == b"surge".as_slice()
        || text == b"timeout".as_slice()
        || text == b"workers".as_slice()
}

fn is_detail(text: &[u8]) -> bool
    ensures { result ≡ is_detail text.now }
{
    is_lettered(text) || is_numeral(text) || is_key(text)
}

/// One word or more, at most so many, with single spaces between them.
#[tactic(auto, using(crate::proofs::CodeTexts::details_both))]
fn are_details(most: usize, text: &[u8]) -> bool
    ensures { result ≡ are_details most text.now }
{
    if most == 0 {
        return false;
    }
    match cut(text, b' ') {
        None => is_detail(text),
        Some((word, rest)) => is_detail(word) && are_details(most - 1, rest),
    }
}

/// Whether a text is a code: a capital letter with a number, and at most five words of what it is
/// about, each such a letter with a number, a number or a key of a configuration.
pub(crate) fn is_code(text: &[u8]) -> bool
    ensures { result ≡ is_code text.now }
{
    match cut(text, b' ') {
        None => is_lettered(text),
        Some((code, about)) => is_lettered(code) && are_details(5, about),
    }
}

/// The code of a text. The only refusal is want of memory.
#[tactic(auto, using(crate::proofs::CodeTexts::IsUtf8_code))]
pub(crate) fn code_of(alloc: Global, text: &[u8]) -> Result<CodeText, AllocError>
    requires { IsTrue (is_code text.now) }
    ensures { IfOk result (λ code. code ≡ text.now) }
{
    let bytes = Vec::from_slice(alloc, text)?;
    let Ok(code) = String::from_utf8(bytes) else {
        unreachable!()
    };
    Ok(CodeText::long(code))
}
