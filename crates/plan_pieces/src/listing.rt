//! The numbers of a set, as plans go through them.
ghost use Rattle.std.specs.Prelude.{◌≡◌, ◌≤◌, length, IfOk};
ghost use Rattle.listener_set.specs.Numbers.{AreNumbers};

use listener_set::{Numbers, WORKER_LIMIT};
use std::alloc::{AllocError, Global};

/// The numbers of a set, upwards. `AllocError` where memory for them is refused.
pub fn listed(alloc: Global, numbers: &Numbers) -> Result<Vec<u32>, AllocError>
    ensures items { IfOk result (λ list. list.items ≡ numbers.now) }
    ensures most { length numbers.now ≤ WORKER_LIMIT }
    ensures numbers { AreNumbers WORKER_LIMIT numbers.now }
{
    let mut list = Vec::with_capacity(alloc, numbers.len())?;
    for number in numbers.iter() {
        list.push(number)?;
    }
    Ok(list)
}
