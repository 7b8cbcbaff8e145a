//! How many workers of each generation serve an address.
ghost use Rattle.std.specs.Prelude.{◌≡◌, ◌≤◌, map, length, OnOk, OnErr};
ghost use Rattle.std.specs.Ordering.{is_le, is_eq};
ghost use Rattle.std.specs.FinMap.{put};
ghost use Rattle.std.specs.List.{position_or_len};
ghost use Rattle.kernel_service.specs.Services.{generation_cmp, count_at, with_count};
ghost use Rattle.kernel_service.specs.Served.{seen_count};

use listener_set::Generation;
use std::alloc::AllocError;

/// How many workers of a generation serve.
#[derive(Clone, Copy)]
pub struct Count {
    pub generation: Generation,
    pub workers: u32,
}

/// Whether the generation is no higher than the other.
fn is_up_to(generation: Generation, other: Generation) -> bool
    ensures { result ≡ is_le (generation_cmp generation other) }
{
    generation.image < other.image
        || (generation.image == other.image && generation.config <= other.config)
}

fn is_same(generation: Generation, other: Generation) -> bool
    ensures { result ≡ is_eq (generation_cmp generation other) }
{
    generation.image == other.image && generation.config == other.config
}

/// Where the first generation stands that is no lower.
fn count_place(counts: &[Count], generation: Generation) -> usize
    ensures place { result ≡ position_or_len (λ c. is_le (generation_cmp generation c.generation)) counts.now }
    ensures within { result ≤ length counts.now }
{
    counts
        .iter()
        .position(|count| is_up_to(generation, count.generation))
        .unwrap_or(counts.len())
}

/// Gives the generation that count, in place of the one that it had. Where memory for it is refused the counts are as they
/// were.
pub fn set_count(
    counts: &mut Vec<Count>,
    generation: Generation,
    workers: u32,
) -> Result<(), AllocError>
    ensures ok { OnOk result (map seen_count counts.new.items ≡ put generation_cmp generation workers (map seen_count counts.old.items)) }
    ensures err { OnErr result (counts.new.items ≡ counts.old.items) }
{
    let place = count_place(counts, generation);
    if place < counts.len() && is_same(generation, counts[place].generation) {
        counts[place].workers = workers;
        return Ok(());
    }
    let count = Count {
        generation,
        workers,
    };
    counts.insert(place, count)?;
    Ok(())
}

pub(crate) fn set_given(
    counts: &mut Vec<Count>,
    count: Option<(Generation, u32)>,
) -> Result<(), AllocError>
    ensures ok { OnOk result (map seen_count counts.new.items ≡ with_count count (map seen_count counts.old.items)) }
    ensures err { OnErr result (counts.new.items ≡ counts.old.items) }
{
    match count {
        None => Ok(()),
        Some((generation, workers)) => set_count(counts, generation, workers),
    }
}

/// The count of a generation, 0 where it has none.
pub fn count_of(counts: &[Count], generation: Generation) -> u32
    ensures { result ≡ count_at (map seen_count counts.now) generation }
{
    for count in counts {
        if is_same(generation, count.generation) {
            return count.workers;
        }
    }
    0
}
