//! Forks, read.
ghost use Rattle.std.specs.Prelude.{◌≡◌};
ghost use Rattle.call_text.specs.CallReading.{descriptors_of, named_of, fork_in};

use crate::parts::{behind, read_generation, read_worker_number};
use crate::sets::read_numbers;
use listener_set::DescriptorSet;
use plain_text::cut;
use vocabulary::Call;

/// A set of descriptors.
fn read_descriptors(text: &[u8]) -> Option<DescriptorSet>
    ensures { result ≡ descriptors_of text.now }
{
    let numbers = read_numbers(text)?;
    DescriptorSet::of(&numbers)
}

/// The number of a new worker, and the descriptors that it gets, where they are named behind it.
fn read_named(text: &[u8]) -> Option<(u32, Option<DescriptorSet>)>
    ensures { result ≡ named_of text.now }
{
    match cut(text, b' ') {
        None => {
            let nr = read_worker_number(text)?;
            Some((nr, None))
        }
        Some((nr, rest)) => {
            let nr = read_worker_number(nr)?;
            let set = read_descriptors(behind(rest, b"fds")?)?;
            Some((nr, Some(set)))
        }
    }
}

/// What follows the word of a fork.
pub(crate) fn read_fork(text: &[u8]) -> Option<Call>
    ensures { result ≡ fork_in text.now }
{
    let (generation, rest) = cut(text, b' ')?;
    let generation = read_generation(generation)?;
    let (nr, set) = read_named(rest)?;
    Some(Call::Fork(generation, nr, set))
}
