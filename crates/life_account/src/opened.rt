//! The addresses that are open in each table, and the fewest ready workers that each had.
ghost use Rattle.std.specs.Prelude.{◌≡◌, ◌==◌, ◌&&◌, bytes_eq, map, filter, IfOk, OnOk};
ghost use Rattle.std.specs.List.{list_any};
ghost use Rattle.definitions.specs.Table.{is_live_where};
ghost use Rattle.kernel_rows.specs.Holds.{address_of, seen_holds};
ghost use Rattle.kernel_rows.specs.Seen.{seen_holder, seen_rows};
ghost use Rattle.lives.specs.Lives.{is_open};
ghost use Rattle.life_account.specs.Tables.{lower, looked, open_hold, with_own, first_open, still_open, after_table};

use death_explorer::ready_at;
use kernel_model::{HoldRow, Kernel, Row};
use kernel_rows::{Holder, Holders, holds};
use listener_set::{Address, DescriptorTable};
use std::alloc::{AllocError, Global};

/// A table of a life: of which word, counted from 1, and after how many of its calls. The start is word 0.
#[derive(Clone, Copy, Debug)]
pub struct TablePlace {
    pub word: usize,
    pub call: u32,
}

/// The fewest ready workers that an address had, and the first table where.
#[derive(Clone, Copy, Debug)]
pub struct LeastReady {
    pub ready: u32,
    pub place: TablePlace,
}

/// An address that was open on this socket in each table so far.
#[derive(Clone, Copy, Debug)]
pub struct OpenAddress {
    pub address: Address,
    pub socket: u32,
    /// None if no table was counted yet.
    pub least: Option<LeastReady>,
}

/// Whether a socket that is held is of the address, and is this one.
fn is_on(addresses: &[Address], held: u32, address: &Address, socket: u32) -> bool
    ensures { result ≡ (bytes_eq (address_of addresses.now held) address.now && (held == socket)) }
{
    holds::text_of(addresses, held) == address.bytes() && held == socket
}

/// Whether one of the holds is of the address, on this socket.
fn has_socket(
    addresses: &[Address],
    holds: &DescriptorTable,
    address: &Address,
    socket: u32,
) -> bool
    ensures { result ≡ list_any (λ h. bytes_eq h.address address.now && (h.socket == socket)) (seen_holds addresses.now holds.now) }
{
    holds
        .iter()
        .any(|(_, held)| is_on(addresses, held, address, socket))
}

/// Whether the process is a live master that holds the address on this socket.
fn is_live_on(holder: &Holder, addresses: &[Address], address: &Address, socket: u32) -> bool
    ensures { result ≡ is_live_where (λ n hs. list_any (λ h. bytes_eq h.address address.now && (h.socket == socket)) hs) (seen_holder addresses.now holder.now) }
{
    match holder.row {
        Row::Master { live, .. } => live && has_socket(addresses, &holder.holds, address, socket),
        Row::Worker { .. } | Row::Foreign { .. } => false,
    }
}

fn is_open_in(holders: &Holders, addresses: &[Address], address: &Address, socket: u32) -> bool
    ensures { result ≡ list_any (is_live_where (λ n hs. list_any (λ h. bytes_eq h.address address.now && (h.socket == socket)) hs)) (seen_rows addresses.now holders.now.items) }
{
    holders
        .iter()
        .any(|holder| is_live_on(holder, addresses, address, socket))
}

/// Whether a live master holds the address on this socket.
fn is_open(kernel: &Kernel, address: &Address, socket: u32) -> bool
    ensures { result ≡ is_open address.now socket kernel.now.table }
{
    let store = kernel.store();
    is_open_in(&store.holders, &store.addresses, address, socket)
}

/// The fewer workers, and else the first.
fn lower(least: Option<LeastReady>, ready: u32, place: TablePlace) -> Option<LeastReady>
    ensures { result ≡ lower least ready place }
{
    match least {
        Some(least) if ready >= least.ready => Some(least),
        _ => Some(LeastReady { ready, place }),
    }
}

/// An address once the table at this place was counted.
fn looked(one: OpenAddress, kernel: &Kernel, place: TablePlace) -> OpenAddress
    ensures { result ≡ looked place kernel.now.table one }
{
    let ready = ready_at(kernel, &one.address);
    OpenAddress {
        address: one.address,
        socket: one.socket,
        least: lower(one.least, ready, place),
    }
}

/// Counts the ready workers of each address.
pub(crate) fn look(kept: &mut Vec<OpenAddress>, kernel: &Kernel, place: TablePlace)
    ensures { kept.new.items ≡ map (looked place kernel.now.table) kept.old.items }
{
    for at in 0..kept.len() {
        let seen = looked(kept[at], kernel, place);
        kept[at] = seen;
    }
}

/// Takes the addresses out that are not open in this table.
fn close(kept: &mut Vec<OpenAddress>, kernel: &Kernel)
    ensures { kept.new.items ≡ still_open kernel.now.table kept.old.items }
{
    kept.retain(|one| is_open(kernel, &one.address, one.socket));
}

/// Passes a table: an address that it has not open is no longer among them, and if the table counts, the workers of the
/// others are counted.
pub(crate) fn pass(kept: &mut Vec<OpenAddress>, kernel: &Kernel, counts: bool, place: TablePlace)
    ensures { kept.new.items ≡ after_table counts place kernel.now.table kept.old.items }
{
    close(kept, kernel);
    if counts {
        look(kept, kernel, place);
    }
}

fn open_hold(hold: &HoldRow) -> OpenAddress
    ensures { result ≡ open_hold hold.now }
{
    OpenAddress {
        address: hold.address,
        socket: hold.socket,
        least: None,
    }
}

/// Adds a socket if the process of this number holds it.
fn add_own(kept: &mut Vec<OpenAddress>, process: u32, hold: &HoldRow) -> Result<(), AllocError>
    ensures { OnOk result (kept.new.items ≡ with_own process hold.now kept.old.items) }
{
    if hold.process == process {
        kept.push(open_hold(hold))?;
    }
    Ok(())
}

/// The addresses that the process of this number holds.
pub(crate) fn first_open(
    alloc: Global,
    kernel: &Kernel,
    process: u32,
) -> Result<Vec<OpenAddress>, AllocError>
    ensures { IfOk result (λ kept. kept.items ≡ first_open process kernel.now.table) }
{
    let mut kept = Vec::new(alloc);
    for place in 0..usize::MAX {
        let Some(hold) = kernel.hold(place) else {
            return Ok(kept);
        };
        add_own(&mut kept, process, &hold)?;
    }
    Err(AllocError)
}
