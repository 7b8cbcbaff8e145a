//! What a death leaves.
ghost use Rattle.std.specs.Prelude.{◌≡◌, count_by, IfOk};
ghost use Rattle.definitions.specs.Calls.{after_exits};
ghost use Rattle.call_laws.specs.Pieces.{is_ready};
ghost use Rattle.definitions.specs.After.{listens_on};
ghost use Rattle.kernel_rows.specs.Seen.{seen_holder, seen_rows};
ghost use Rattle.death_explorer.specs.Leftovers.{is_ready_at, ready_at, fewer, fewest_after, fewest_left, exits_of, has_room, are_held};

use kernel_model::{Kernel, Moment, Row};
use kernel_rows::{Holder, Holders, holds};
use listener_set::Address;
use service_state::Record;
use std::alloc::AllocError;
use vocabulary::{Actor, Call, Name, Settings, Stance};

/// The same kernel in memory of its own, with room for so many calls. A kernel that has made as many lacks no number, so
/// only memory can be wanted.
pub(crate) fn copied(kernel: &Kernel, calls: u32) -> Result<Kernel, AllocError>
    ensures { IfOk result (λ k. k ≡ record { table = kernel.now.table; room = calls }) }
{
    match kernel.copy(calls) {
        Ok(copy) => Ok(copy),
        Err(_) => Err(AllocError),
    }
}

/// What the exit of an image's master leaves. Exits come with a call: the kernel makes one that changes nothing.
pub(crate) fn left_by(kernel: &Kernel, image: u32) -> Result<Kernel, AllocError>
    ensures { IfOk result (λ left. left.table ≡ after_exits (exits_of image) kernel.now.table) }
{
    let mut left = copied(kernel, 1)?;
    let moment = Moment {
        exits: &[Name::Master(image)],
        fate: None,
    };
    left.call(Actor(image), &Call::Alive(image), &[], &moment);
    Ok(left)
}

fn is_ready(stance: Stance) -> bool
    ensures { result ≡ is_ready stance }
{
    match stance {
        Stance::Ready => true,
        Stance::Starting | Stance::Draining | Stance::Exited => false,
    }
}

/// Whether the process is a Ready worker that holds the address.
fn is_ready_at(holder: &Holder, addresses: &[Address], address: &Address) -> bool
    ensures { result ≡ is_ready_at address.now (seen_holder addresses.now holder.now) }
{
    match holder.row {
        Row::Worker { stance, .. } => {
            is_ready(stance) && holds::has_address(addresses, &holder.holds, address)
        }
        Row::Master { .. } | Row::Foreign { .. } => false,
    }
}

fn count_ready(holders: &Holders, addresses: &[Address], address: &Address) -> usize
    ensures { result ≡ count_by (is_ready_at address.now) (seen_rows addresses.now holders.now.items) }
{
    holders
        .iter()
        .filter(|holder| is_ready_at(holder, addresses, address))
        .count()
}

/// How many Ready workers hold an address, up to 2^32 - 1.
pub fn ready_at(kernel: &Kernel, address: &Address) -> u32
    ensures { result ≡ ready_at kernel.now.table address.now }
{
    let store = kernel.store();
    let count = count_ready(&store.holders, &store.addresses, address);
    if count > u32::MAX as usize {
        u32::MAX
    } else {
        count as u32
    }
}

/// The address with this number of workers, if it has fewer.
fn fewer(fewest: Option<(Address, u32)>, address: &Address, ready: u32) -> (Address, u32)
    ensures { result ≡ fewer fewest address.now ready }
{
    match fewest {
        Some(fewest) if ready >= fewest.1 => fewest,
        _ => (*address, ready),
    }
}

/// The first of the addresses that has the fewest Ready workers, and how many these are.
pub(crate) fn fewest_left(kernel: &Kernel, addresses: &[Address]) -> Option<(Address, u32)>
    ensures { result ≡ fewest_left addresses.now kernel.now.table }
{
    let mut fewest = None;
    for address in addresses {
        fewest = Some(fewer(fewest, address, ready_at(kernel, address)));
    }
    fewest
}

/// Whether the process limit leaves room for a master with all workers of some settings and nobody else.
pub(crate) fn has_room(kernel: &Kernel, settings: &Settings) -> bool
    ensures { result ≡ has_room settings.now kernel.now.table }
{
    settings.workers < kernel.store().limits.processes
}

fn is_held(state: &Record, address: &Address) -> bool
    ensures { result ≡ listens_on state.now.listeners address.now }
{
    state.listeners.holds(address)
}

/// Whether each of the addresses is one of the record's: so a keeper that was lent the sockets of its master has it.
pub(crate) fn are_held(state: &Record, addresses: &[Address]) -> bool
    ensures { result ≡ are_held addresses.now state.now }
{
    addresses.iter().all(|address| is_held(state, address))
}
