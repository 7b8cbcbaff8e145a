//! Services: which addresses are served, and by how many workers of each generation.
ghost use Rattle.std.specs.Prelude.{◌≡◌, ◌≤◌, ℕ, [], map, length, slice_get, is_some, IfSome, OnOk, OnErr, None};
ghost use Rattle.std.specs.Ordering.{is_le, is_eq};
ghost use Rattle.std.specs.FinMap.{find, put};
ghost use Rattle.std.specs.Option.{option_map};
ghost use Rattle.std.specs.List.{position_or_len};
ghost use Rattle.kernel_service.specs.Services.{address_cmp, with_key, entry_at, AreCounts, IsService};
ghost use Rattle.kernel_service.specs.Served.{seen_count, seen_served};

use crate::counts::{Count, set_given};
use listener_set::{Address, Generation};
use std::alloc::{AllocError, Global};
use std::marker::Model;

/// An address, and who serves it in ascending generations.
#[derive(Drop)]
pub struct Served {
    pub address: Address,
    pub counts: Vec<Count>,
}

/// Who serves which addresses: for each address that is a key, how many workers of each generation. No count is 0.
#[derive(Drop)]
pub struct Service {
    entries: Vec<Served>,
}

impl Model for Service {
    ghost use Rattle.std.specs.Prelude.{ℕ, List, map};
    ghost use Rattle.definitions.specs.Table.{Generation};

    ghost Value = { List (List ℕ × List (Generation × ℕ)) };

    ghost use Rattle.kernel_service.specs.Services.{IsService};
    ghost use Rattle.kernel_service.specs.Served.{seen_served};

    ghost view = { λ s. map seen_served s.entries.items };

    ghost invariant = { λ s. IsService (map seen_served s.entries.items) };
}

impl Service {
    /// The service without addresses.
    pub fn new(alloc: Global) -> Self
        ensures { result ≡ [] }
    {
        Service {
            entries: Vec::new(alloc),
        }
    }

    /// Makes the address a key, and sets the generation's count where one is given. A count is at least 1.
    pub fn add(
        &mut self,
        address: &Address,
        count: Option<(Generation, u32)>,
    ) -> Result<(), AllocError>
        requires { IfSome count (λ c. 1 ≤ c.1) }
        ensures ok { OnOk result (self.new ≡ with_key address.now count self.old) }
        ensures err { OnErr result (self.new ≡ self.old) }
    {
        let place = place_of(&self.entries, address);
        if place < self.entries.len() && is_of(&self.entries[place], address) {
            let entry = &mut self.entries[place];
            set_given(&mut entry.counts, count)?;
            return Ok(());
        }
        let mut counts = Vec::new(*self.entries.allocator());
        set_given(&mut counts, count)?;
        self.insert(address, counts)
    }

    /// The i-th address, counted from 0, in ascending bytes.
    pub fn address(&self, i: usize) -> Option<Address>
        ensures address { result ≡ option_map (λ e. e.0) (slice_get self.now i) }
        ensures service { IsService self.now }
    {
        let entry = self.entries.get(i)?;
        Some(entry.address)
    }

    /// The j-th count of the i-th address, both counted from 0, in ascending generations.
    pub fn entry(&self, i: usize, j: usize) -> Option<(Generation, u32)>
        ensures { result ≡ entry_at self.now i j }
    {
        let entry = self.entries.get(i)?;
        let count = entry.counts.get(j)?;
        Some((count.generation, count.workers))
    }

    /// Whether the address is a key.
    pub fn has(&self, address: &Address) -> bool
        ensures { result ≡ is_some (find address_cmp address.now self.now) }
    {
        self.entries.iter().any(|entry| is_of(entry, address))
    }

    /// The addresses with their counts, both ascending.
    pub fn entries(&self) -> &[Served]
        ensures entries { map seen_served result.now ≡ self.now }
        ensures service { IsService self.now }
    {
        &self.entries
    }

    /// Adds a key with its counts.
    pub fn insert(&mut self, address: &Address, counts: Vec<Count>) -> Result<(), AllocError>
        requires absent { find address_cmp address.now self.old ≡ None }
        requires counts { AreCounts (map seen_count counts.items) }
        ensures ok { OnOk result (self.new ≡ put address_cmp address.now (map seen_count counts.items) self.old) }
        ensures err { OnErr result (self.new ≡ self.old) }
    {
        let place = place_of(&self.entries, address);
        let entry = Served {
            address: *address,
            counts,
        };
        self.entries.insert(place, entry)?;
        Ok(())
    }
}

fn is_of(entry: &Served, address: &Address) -> bool
    ensures { result ≡ is_eq (address_cmp address.now entry.now.address) }
{
    address.bytes() == entry.address.bytes()
}

fn is_no_higher(address: &Address, entry: &Served) -> bool
    ensures { result ≡ is_le (address_cmp address.now entry.now.address) }
{
    address.bytes().cmp(entry.address.bytes()).is_le()
}

/// Where the first address stands that is no lower.
fn place_of(entries: &[Served], address: &Address) -> usize
    ensures place { result ≡ position_or_len (λ e. is_le (address_cmp address.now e.address)) entries.now }
    ensures within { result ≤ length entries.now }
{
    entries
        .iter()
        .position(|entry| is_no_higher(address, entry))
        .unwrap_or(entries.len())
}
