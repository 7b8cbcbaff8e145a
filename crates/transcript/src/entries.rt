//! Calls with their answers, read.
ghost use Rattle.std.specs.Prelude.{◌≡◌, option_map};
ghost use Rattle.transcript.specs.EntryReading.{begins_answer, parted, entry_of};
ghost use Rattle.transcript.specs.LineReading.{numbered};

use call_text::{read_answer, read_call};
use plain_text::{cut, read_number};
use vocabulary::Entry;

/// The number of a call, and what follows it; none where a line does not begin with a number.
pub(crate) fn numbered(text: &[u8]) -> Option<(u32, &[u8])>
    ensures { option_map (λ p. (p.0, p.1.now)) result ≡ numbered text.now }
{
    let (first, rest) = cut(text, b' ')?;
    let number = read_number(first)?;
    Some((number, rest))
}

fn begins_answer(text: &[u8]) -> bool
    ensures { result ≡ begins_answer text.now }
{
    match *text {
        [first, second, third, ..] => first == b' ' && second == b':' && third == b' ',
        _ => false,
    }
}

/// What stands before the last ` : `, and what stands behind it.
fn parted(text: &[u8]) -> Option<(&[u8], &[u8])>
    ensures { option_map (λ p. (p.0.now, p.1.now)) result ≡ parted text.now }
{
    let mut place = text.len();
    while place > 0 {
        place -= 1;
        if begins_answer(&text[place..]) {
            return Some((&text[..place], &text[place + 3..]));
        }
    }
    None
}

/// A call and its answer, without its number.
pub(crate) fn read_entry(text: &[u8]) -> Option<Entry>
    ensures { result ≡ entry_of text.now }
{
    let (call, answer) = parted(text)?;
    let (by, call) = read_call(call)?;
    let answer = read_answer(&call, answer)?;
    Some(Entry { by, call, answer })
}
