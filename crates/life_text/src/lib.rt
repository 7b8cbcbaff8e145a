//! The text of a life's account: a line for the number of its words, one for each address that was open throughout, and
//! one for each word that ended with missing workers.
#![tactic(auto)]

ghost use Rattle.std.specs.Prelude.{◌≡◌, ◌++◌, codes, IfOk};
ghost use Rattle.life_text.specs.LifeText.{word_text, place_text, least_text, address_text, open_line, open_lines, all_open_text, short_line, short_lines, all_shorts_text, healed_text, number_text, words_line, life_text};
ghost use Rattle.life_account.specs.Account.{seen_life};

use life_account::{LeastReady, Life, OpenAddress, ShortWord, TablePlace};
use listener_set::Address;
use plain_text::write_number;
use std::alloc::AllocError;

/// A number, after what it counts.
#[tactic(auto, unfolding(crate::specs::LifeText::number_text))]
fn write_named(out: &mut Vec<u8>, name: &[u8], number: u64) -> Result<(), AllocError>
    ensures { IfOk result (λ _. out.new.items ≡ out.old.items ++ number_text name.now number) }
{
    out.extend_from_slice(name)?;
    out.extend_from_slice(b" ")?;
    write_number(out, number)
}

/// A word by its number; 0 is the start.
fn write_word(out: &mut Vec<u8>, word: usize) -> Result<(), AllocError>
    ensures { IfOk result (λ _. out.new.items ≡ out.old.items ++ word_text word) }
{
    if word == 0 {
        return out.extend_from_slice(b"start");
    }
    write_named(out, b"word", word as u64)
}

/// A table of a life: its word, and after which call of it. The start has no calls.
#[tactic(auto, unfolding(crate::specs::LifeText::place_text))]
fn write_place(out: &mut Vec<u8>, place: TablePlace) -> Result<(), AllocError>
    ensures { IfOk result (λ _. out.new.items ≡ out.old.items ++ place_text place) }
{
    if place.word == 0 {
        return out.extend_from_slice(b" at start");
    }
    write_named(out, b" at word", place.word as u64)?;
    write_named(out, b" after call", u64::from(place.call))
}

/// The fewest ready workers, and where they were found first.
#[tactic(auto, unfolding(crate::specs::LifeText::least_text))]
fn write_least(out: &mut Vec<u8>, least: Option<LeastReady>) -> Result<(), AllocError>
    ensures { IfOk result (λ _. out.new.items ≡ out.old.items ++ least_text least) }
{
    let Some(least) = least else {
        return out.extend_from_slice(b" least ready none");
    };
    write_named(out, b" least ready", u64::from(least.ready))?;
    write_place(out, least.place)
}

#[tactic(auto, unfolding(crate::specs::LifeText::address_text))]
fn write_address(out: &mut Vec<u8>, address: &Address) -> Result<(), AllocError>
    ensures { IfOk result (λ _. out.new.items ≡ out.old.items ++ address_text address.now) }
{
    out.extend_from_slice(b"open throughout ")?;
    out.extend_from_slice(address.bytes())?;
    Ok(())
}

#[tactic(auto, unfolding(crate::specs::LifeText::open_line))]
fn write_open(out: &mut Vec<u8>, one: &OpenAddress) -> Result<(), AllocError>
    ensures { IfOk result (λ _. out.new.items ≡ out.old.items ++ open_line one.now) }
{
    write_address(out, &one.address)?;
    write_least(out, one.least)?;
    out.extend_from_slice(b"\n")
}

fn write_each_open(out: &mut Vec<u8>, addresses: &[OpenAddress]) -> Result<(), AllocError>
    ensures { IfOk result (λ _. out.new.items ≡ out.old.items ++ open_lines addresses.now) }
{
    for one in addresses {
        write_open(out, one)?;
    }
    Ok(())
}

/// The addresses that were open in each table.
fn write_all_open(out: &mut Vec<u8>, addresses: &[OpenAddress]) -> Result<(), AllocError>
    ensures { IfOk result (λ _. out.new.items ≡ out.old.items ++ all_open_text addresses.now) }
{
    if addresses.is_empty() {
        return out.extend_from_slice(b"open throughout none\n");
    }
    write_each_open(out, addresses)
}

/// Which word healed another one, if one did.
#[tactic(auto, unfolding(crate::specs::LifeText::healed_text))]
fn write_healed(out: &mut Vec<u8>, healed: Option<usize>) -> Result<(), AllocError>
    ensures { IfOk result (λ _. out.new.items ≡ out.old.items ++ healed_text healed) }
{
    match healed {
        None => out.extend_from_slice(b" not healed"),
        Some(word) => write_named(out, b" healed word", word as u64),
    }
}

#[tactic(auto, unfolding(crate::specs::LifeText::short_line))]
fn write_short(out: &mut Vec<u8>, short: &ShortWord) -> Result<(), AllocError>
    ensures { IfOk result (λ _. out.new.items ≡ out.old.items ++ short_line short.now) }
{
    out.extend_from_slice(b"short ")?;
    write_word(out, short.word)?;
    write_named(out, b" missing", u64::from(short.missing))?;
    write_healed(out, short.healed)?;
    out.extend_from_slice(b"\n")
}

fn write_each_short(out: &mut Vec<u8>, shorts: &[ShortWord]) -> Result<(), AllocError>
    ensures { IfOk result (λ _. out.new.items ≡ out.old.items ++ short_lines shorts.now) }
{
    for short in shorts {
        write_short(out, short)?;
    }
    Ok(())
}

/// The words that ended with missing workers.
fn write_all_shorts(out: &mut Vec<u8>, shorts: &[ShortWord]) -> Result<(), AllocError>
    ensures { IfOk result (λ _. out.new.items ≡ out.old.items ++ all_shorts_text shorts.now) }
{
    if shorts.is_empty() {
        return out.extend_from_slice(b"short none\n");
    }
    write_each_short(out, shorts)
}

#[tactic(auto, unfolding(crate::specs::LifeText::words_line))]
fn write_words(out: &mut Vec<u8>, words: usize) -> Result<(), AllocError>
    ensures { IfOk result (λ _. out.new.items ≡ out.old.items ++ words_line words) }
{
    write_named(out, b"life words", words as u64)?;
    out.extend_from_slice(b"\n")
}

/// Appends the account of a life of so many words. It fails only where memory is refused.
pub fn write_life(out: &mut Vec<u8>, words: usize, life: &Life) -> Result<(), AllocError>
    ensures { IfOk result (λ _. out.new.items ≡ out.old.items ++ life_text words (seen_life life.now)) }
{
    write_words(out, words)?;
    write_all_open(out, life.addresses.as_slice())?;
    write_all_shorts(out, life.shorts.as_slice())
}
