//! Who serves the addresses of a table.
ghost use Rattle.std.specs.Prelude.{◌≡◌, ◌≤◌, ◌<◌, ◌^◌, ◌&&◌, ℕ, Bool, List, map, length, bytes_eq, count_by, IfOk, if◌then◌else◌, Some, None};
ghost use Rattle.std.specs.List.{list_any};
ghost use Rattle.definitions.specs.Table.{Generation, Hold, has_address};
ghost use Rattle.call_laws.specs.Pieces.{is_live_with};
ghost use Rattle.call_laws.specs.Pieces.{is_serving_as};
ghost use Rattle.kernel_rows.specs.Seen.{process_of, seen_holder, seen_rows};
ghost use Rattle.kernel_service.specs.Services.{count_at, at, AreCounts};
ghost use Rattle.kernel_service.specs.Served.{seen_count};
ghost use Rattle.kernel_model.specs.Serving.{is_generation};

use crate::Kernel;
use kernel_rows::{Holder, Holders, Row, holds};
use kernel_service::{Count, Service, count_of, set_count};
use listener_set::{Address, Generation};
use std::alloc::{AllocError, Global};
use vocabulary::Stance;

impl Kernel {
    ghost use Rattle.definitions.specs.Table.{service, IsSame};

    /// The service: each address that a live master holds, with the Ready workers of any master that hold it, by
    /// generation.
    pub fn service(&self) -> Result<Service, AllocError>
        ensures { IfOk result (λ s. IsSame (at s) (service self.now.table)) }
    {
        let store = &self.store;
        service_of(
            &store.holders,
            &store.addresses,
            *store.addresses.allocator(),
        )
    }
}

fn is_live(row: &Row) -> bool
    ensures { (test : List Hold → Bool) (hs : List Hold) → is_live_with test (process_of row.now hs) ≡ (result && test hs) }
{
    match *row {
        Row::Master { live, .. } => live,
        Row::Worker { .. } | Row::Foreign { .. } => false,
    }
}

/// The generation of a Ready worker.
fn ready_generation(row: &Row) -> Option<Generation>
    ensures { (a : List ℕ) (g : Generation) (hs : List Hold) → is_serving_as a g (process_of row.now hs) ≡ (is_generation result g && has_address a hs) }
{
    match *row {
        Row::Worker {
            generation,
            stance: Stance::Ready,
            ..
        } => Some(generation),
        _ => None,
    }
}

/// The generation of a Ready worker that holds the address.
fn serving_generation(
    holder: &Holder,
    addresses: &[Address],
    address: &Address,
) -> Option<Generation>
    ensures { (g : Generation) → is_serving_as address.now g (seen_holder addresses.now holder.now) ≡ is_generation result g }
{
    let generation = ready_generation(&holder.row)?;
    if holds::has_address(addresses, &holder.holds, address) {
        Some(generation)
    } else {
        None
    }
}

/// Whether a live master holds the address.
fn is_offered(holders: &Holders, addresses: &[Address], address: &Address) -> bool
    ensures { result ≡ list_any (is_live_with (has_address address.now)) (seen_rows addresses.now holders.now.items) }
{
    holders.iter().any(|holder| {
        is_live(&holder.row) && holds::has_address(addresses, &holder.holds, address)
    })
}

/// The Ready workers that hold the address, by generation.
fn ready_counts(
    holders: &Holders,
    addresses: &[Address],
    address: &Address,
    alloc: Global,
) -> Result<Vec<Count>, AllocError>
    requires { (g : Generation) → count_by (is_serving_as address.now g) (seen_rows addresses.now holders.now.items) < 2 ^ 32 }
    ensures counts { IfOk result (λ counts. (g : Generation) → count_at (map seen_count counts.items) g ≡ count_by (is_serving_as address.now g) (seen_rows addresses.now holders.now.items)) }
    ensures sound { IfOk result (λ counts. AreCounts (map seen_count counts.items)) }
{
    let mut counts = Vec::new(alloc);
    for holder in holders.iter() {
        if let Some(generation) = serving_generation(holder, addresses, address) {
            let workers = count_of(&counts, generation) + 1;
            set_count(&mut counts, generation, workers)?;
        }
    }
    Ok(counts)
}

/// The service of the rows, whose sockets are of these addresses.
fn service_of(
    holders: &Holders,
    addresses: &[Address],
    alloc: Global,
) -> Result<Service, AllocError>
    requires { length holders.now.items ≤ 2 ^ 32 }
    ensures { IfOk result (λ s. (a : List ℕ) → at s a ≡ (if list_any (λ b. bytes_eq b a) addresses.now && list_any (is_live_with (has_address a)) (seen_rows addresses.now holders.now.items) then Some (λ g. count_by (is_serving_as a g) (seen_rows addresses.now holders.now.items)) else None)) }
{
    let mut service = Service::new(alloc);
    for address in addresses {
        if !service.has(address) && is_offered(holders, addresses, address) {
            let counts = ready_counts(holders, addresses, address, alloc)?;
            service.insert(address, counts)?;
        }
    }
    Ok(service)
}
