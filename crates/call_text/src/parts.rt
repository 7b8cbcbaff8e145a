//! Words, workers, addresses and paths, read.
ghost use Rattle.std.specs.Prelude.{◌≡◌, ◌<◌, IfSome, option_map};
ghost use Rattle.plain_text.specs.NumberText.{count_of};
ghost use Rattle.call_text.specs.Reading.{behind, generation_of, worker_of, worker_number, address_of, suffixed_of, path_of, paths_of};

use listener_set::{Address, FilePath, Generation, WORKER_LIMIT};
use plain_text::{cut, number_within, read_number};

/// What follows a word and a space, where the text begins so.
pub(crate) fn behind<'a>(text: &'a [u8], word: &[u8]) -> Option<&'a [u8]>
    ensures { option_map (λ rest. rest.now) result ≡ behind word.now text.now }
{
    let (first, rest) = cut(text, b' ')?;
    if first == word { Some(rest) } else { None }
}

/// The number of a worker, below 1024.
pub(crate) fn read_worker_number(text: &[u8]) -> Option<u32>
    ensures exact { result ≡ worker_number text.now }
    ensures within { IfSome result (λ nr. nr < WORKER_LIMIT) }
{
    number_within(text, 0, WORKER_LIMIT - 1)
}

/// Image and config number, joined by a dot.
pub(crate) fn read_generation(text: &[u8]) -> Option<Generation>
    ensures { result ≡ generation_of text.now }
{
    let (image, config) = cut(text, b'.')?;
    let image = read_number(image)?;
    let config = read_number(config)?;
    Some(Generation { image, config })
}

/// A generation and a worker's number.
pub(crate) fn read_worker(text: &[u8]) -> Option<(Generation, u32)>
    ensures { result ≡ worker_of text.now }
{
    let (generation, nr) = cut(text, b' ')?;
    let generation = read_generation(generation)?;
    let nr = read_worker_number(nr)?;
    Some((generation, nr))
}

pub(crate) fn read_address(text: &[u8]) -> Option<Address>
    ensures { result ≡ address_of text.now }
{
    Address::read(text).ok()
}

/// A path with the suffix `.oldbin`.
fn read_suffixed(text: &[u8]) -> Option<FilePath>
    ensures { result ≡ suffixed_of text.now }
{
    let place = text.len().checked_sub(7)?;
    if &text[place..] != b".oldbin".as_slice() {
        return None;
    }
    let stem = FilePath::read(&text[..place]).ok()?;
    Some(stem.oldbin())
}

/// A path that a configuration can name, or such a one with the suffix `.oldbin`.
pub(crate) fn read_path(text: &[u8]) -> Option<FilePath>
    ensures { result ≡ path_of text.now }
{
    match FilePath::read(text) {
        Ok(path) => Some(path),
        Err(_) => read_suffixed(text),
    }
}

/// Two paths.
pub(crate) fn read_paths(text: &[u8]) -> Option<(FilePath, FilePath)>
    ensures { result ≡ paths_of text.now }
{
    let (from, to) = cut(text, b' ')?;
    let from = read_path(from)?;
    let to = read_path(to)?;
    Some((from, to))
}
