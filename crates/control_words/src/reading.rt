//! Lines as control words.
ghost use Rattle.std.specs.Prelude.{◌≡◌, Ok, IfOk};
ghost use Rattle.control_words.specs.Words.{word_text, reading, beat_in, tick_in, IsWord};
ghost use Rattle.control_words.specs.declared.words.Word.{Word as TheWord};

use crate::{Word, WordRefusal};
use listener_set::WORKER_LIMIT;
use plain_text::{around, read_number, read_number64};

/// The beat of a worker, by its numbers `K NOW`.
fn beat_in(numbers: &[u8]) -> Option<Word>
    ensures { result ≡ beat_in numbers.now }
{
    let (nr, now) = around(numbers, b' ');
    let nr = read_number(nr)?;
    let now = read_number64(now)?;
    if nr < WORKER_LIMIT {
        Some(Word::Beat { nr, now })
    } else {
        None
    }
}

/// The tick of the clock, by its number `NOW`.
fn tick_in(number: &[u8]) -> Option<Word>
    ensures { result ≡ tick_in number.now }
{
    let now = read_number64(number)?;
    Some(Word::Tick { now })
}

fn word_of(line: &[u8]) -> Result<Word, WordRefusal>
    ensures { result ≡ reading line.now }
{
    let (name, numbers) = around(line, b' ');
    if name == b"beat".as_slice() {
        beat_in(numbers).ok_or(WordRefusal::BadNumber)
    } else if name == b"tick".as_slice() {
        tick_in(numbers).ok_or(WordRefusal::BadNumber)
    } else {
        Word::signal_of(line).ok_or(WordRefusal::Unknown)
    }
}

/// Reads a line, without its newline: exactly a word as it is written. A word's name ends at the first space. Where it is
/// `beat` or `tick`, and what follows is not exactly its numbers, decimal without leading zeros and after single spaces,
/// the line is refused as W2; any other line that is no word as W1.
pub fn read(line: &[u8]) -> Result<Word, WordRefusal>
    ensures exact { result ≡ reading line.now }

    // What is read is the word as it is written, and each word is read as it is written.
    ensures found { IfOk result (λ word. (line.now ≡ word_text word) × IsWord word) }
    ensures only { (word : TheWord) → IsWord word → line.now ≡ word_text word → result ≡ Ok word }
{
    word_of(line)
}
