//! Texts of exits and fates.
ghost use Rattle.std.specs.Prelude.{◌≡◌, ◌++◌, IfOk, ⊤};
ghost use Rattle.call_text.specs.Words.{fate_text};
ghost use Rattle.call_text.specs.NameText.{worker_name, name_text};
ghost use Rattle.call_text.specs.Reads.{Reads};
ghost use Rattle.call_text.specs.Ranges.{IsName};
ghost use Rattle.call_text.specs.NameReading.{worker_name_of, name_of, is_fate, fate_of};

use crate::parts::read_worker_number;
use crate::words::fate_text;
use listener_set::Generation;
use plain_text::{cut, read_number, write_number};
use std::alloc::AllocError;
use vocabulary::{Fate, Name};

/// A kind of worker, and its name.
fn write_worker(
    out: &mut Vec<u8>,
    kind: &str,
    generation: Generation,
    nr: u32,
) -> Result<(), AllocError>
    ensures { IfOk result (λ _. out.new.items ≡ out.old.items ++ (kind.now ++ worker_name generation nr)) }
{
    out.extend_from_slice(kind.as_bytes())?;
    generation.write(out)?;
    out.extend_from_slice(b".")?;
    write_number(out, u64::from(nr))
}

/// Puts the name of who exits behind what was written: `wI.C.N` for a Starting or Ready worker,
/// `dI.C.N` for a Draining one, `mI` for a master. The only refusal is want of memory.
pub fn write_name(out: &mut Vec<u8>, name: &Name) -> Result<(), AllocError>
    ensures { IfOk result (λ _. out.new.items ≡ out.old.items ++ name_text name.now) }
{
    match name {
        Name::Worker(generation, nr) => write_worker(out, "w", *generation, *nr),
        Name::Draining(generation, nr) => write_worker(out, "d", *generation, *nr),
        Name::Master(image) => {
            out.extend_from_slice(b"m")?;
            write_number(out, u64::from(*image))
        }
    }
}

/// Image, config number and number of a worker, joined by dots.
fn read_worker_name(text: &[u8]) -> Option<(Generation, u32)>
    ensures { result ≡ worker_name_of text.now }
{
    let (image, rest) = cut(text, b'.')?;
    let image = read_number(image)?;
    let (config, nr) = cut(rest, b'.')?;
    let config = read_number(config)?;
    let nr = read_worker_number(nr)?;
    Some((Generation { image, config }, nr))
}

fn read_any(text: &[u8]) -> Option<Name>
    ensures { result ≡ name_of text.now }
{
    let (kind, rest) = text.split_first()?;
    match *kind {
        b'w' => {
            let (generation, nr) = read_worker_name(rest)?;
            Some(Name::Worker(generation, nr))
        }
        b'd' => {
            let (generation, nr) = read_worker_name(rest)?;
            Some(Name::Draining(generation, nr))
        }
        b'm' => Some(Name::Master(read_number(rest)?)),
        _ => None,
    }
}

/// Reads the name of who exits as `write_name` writes it, and no other text. Images and
/// configurations are at most 4,294,967,295, a worker's number is below 1024. Any bytes may come.
pub fn read_name(text: &[u8]) -> Option<Name>
    ensures exact { result ≡ name_of text.now }
    ensures reads { Reads IsName name_text text.now result }
{
    read_any(text)
}

fn is_fate(fate: Fate, text: &[u8]) -> bool
    ensures { result ≡ is_fate text.now fate }
{
    fate_text(fate).as_bytes() == text
}

fn find_fate(text: &[u8]) -> Option<Fate>
    ensures { result ≡ fate_of text.now }
{
    Fate::ALL.iter().copied().find(|fate| is_fate(*fate, text))
}

/// Reads the word of a fate, and no other text. Any bytes may come.
pub fn read_fate(text: &[u8]) -> Option<Fate>
    ensures exact { result ≡ fate_of text.now }
    ensures reads { Reads (λ _. ⊤) fate_text text.now result }
{
    find_fate(text)
}
