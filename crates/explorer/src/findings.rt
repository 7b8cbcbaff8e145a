//! What runs come to: how they end, and how few workers served and how many lived on the way.
ghost use Rattle.std.specs.Prelude.{◌≡◌, ◌-◌, ◌^◌, false, nat_lt, min, map, None, IfOk, OnOk};
ghost use Rattle.std.specs.List.{sum_by};
ghost use Rattle.std.specs.Ordering.{is_eq};
ghost use Rattle.service_state.specs.Targets.{lacks_generation};
ghost use Rattle.kernel_service.specs.Served.{seen_count, seen_served};
ghost use Rattle.kernel_service.specs.Services.{address_cmp};
ghost use Rattle.explorer.specs.Tallies.{nothing_counted};
ghost use Rattle.explorer.specs.Readiness.{listed_at, fewer, fewest_from, low_after, HaveAtLeast, AreShared, AreCommon};
ghost use Rattle.explorer.specs.Least.{bound_of, IsSeen, IsLeastSince};
ghost use Rattle.explorer.specs.Most.{is_living_row, living_in, exceeds, IsAtMost, IsMostSince};
ghost use Rattle.explorer.specs.Looking.{IsSameSo, IsSeenIn, IsLooked};

use crate::events::Tried;
use crate::tally::Tally;
use kernel_model::Kernel;
use kernel_rows::Row;
use kernel_service::{Count, Served, Service};
use listener_set::Address;
use service_state::{Record, want};
use std::alloc::{AllocError, Global};
use vocabulary::{Call, Stance, Target};

/// The fewest Ready workers that an address had in a table, and which run had come there, after so many calls.
#[derive(Clone, Copy, Debug)]
pub struct Least {
    pub ready: u32,
    pub address: Address,
    pub tried: Tried,
    pub made: u32,
}

/// The most workers that lived at once in a table, and which run had come there, after so many calls.
#[derive(Clone, Copy, Debug)]
pub struct Most {
    pub workers: u32,
    pub tried: Tried,
    pub made: u32,
}

/// What was found of the runs so far.
#[derive(Drop)]
pub struct Findings {
    /// How they ended.
    pub tally: Tally,
    /// The fewest workers at an address that both services name, where there is one.
    pub least: Option<Least>,
    /// The most workers that lived at once, where a table was passed.
    pub most: Option<Most>,
    /// How many tables they passed. The one in which a run begins to differ is the other's too.
    pub tables: u64,
    common: Vec<Address>,
}

impl Findings {
    /// Before the first run.
    pub fn new(alloc: Global) -> Findings
        ensures tally { result.tally ≡ nothing_counted }
        ensures least { result.least ≡ None }
        ensures most { result.most ≡ None }
    {
        Findings {
            tally: Tally::new(),
            least: None,
            most: None,
            tables: 0,
            common: Vec::new(alloc),
        }
    }

    /// Takes the addresses that both services name.
    pub(crate) fn begin(&mut self, common: Vec<Address>)
        ensures { self.new ≡ record self.old { common = common } }
    {
        self.common = common;
    }

    /// How few workers there must be at an address to be the fewest so far.
    fn bound(&self) -> u32
        ensures { result ≡ bound_of self.now.least }
    {
        match &self.least {
            Some(least) => least.ready,
            None => u32::MAX,
        }
    }

    /// Whether a table must be counted in which each of the addresses has at least so many Ready workers.
    pub(crate) fn may_have_fewer(&self, low: u32) -> bool
        ensures { result ≡ nat_lt low (bound_of self.now.least) }
    {
        low < self.bound()
    }

    /// Whether a table with so many workers has more than all before; the first one has.
    fn is_most(&self, workers: u32) -> bool
        ensures { result ≡ exceeds workers self.now.most }
    {
        match &self.most {
            Some(most) => most.workers < workers,
            None => true,
        }
    }

    /// Passes so many tables, which another run passes too.
    pub(crate) fn pass(&mut self, tables: u64)
        ensures tally { self.new.tally ≡ self.old.tally }
        ensures same { IsSameSo self.old self.new }
    {
        self.tables = self.tables.saturating_add(tables);
    }

    /// Looks at a table that a run has come to, in which each of the addresses has at least so many Ready workers. They are
    /// counted where there may be fewer than ever. Gives how many there are at least.
    pub(crate) fn look(
        &mut self,
        kernel: &Kernel,
        low: u32,
        tried: &Tried,
        made: u32,
    ) -> Result<u32, AllocError>
        ensures tally { self.new.tally ≡ self.old.tally }
        ensures looked { IsLooked kernel.now.table tried.now made self.old self.new }
        ensures seen { HaveAtLeast self.old.common.items kernel.now.table low → OnOk result (IsSeenIn self.new kernel.now.table) }
        ensures low { HaveAtLeast self.old.common.items kernel.now.table low → IfOk result (HaveAtLeast self.old.common.items kernel.now.table) }
    {
        self.tables = self.tables.saturating_add(1);
        self.look_for_most(kernel, tried, made)?;
        self.look_for_least(kernel, low, tried, made)
    }

    /// Counts the workers that live in a table.
    fn look_for_most(&mut self, kernel: &Kernel, tried: &Tried, made: u32) -> Result<(), AllocError>
        ensures others { self.new ≡ record self.old { most = self.new.most } }
        ensures most { IsMostSince kernel.now.table tried.now made self.old self.new }
        ensures seen { OnOk result (IsAtMost (living_in kernel.now.table) self.new.most) }
    {
        let workers = living_workers(kernel)?;
        if self.is_most(workers) {
            self.most = Some(Most {
                workers,
                tried: *tried,
                made,
            });
        }
        Ok(())
    }

    /// Counts the Ready workers of the addresses, where there may be fewer than ever.
    fn look_for_least(
        &mut self,
        kernel: &Kernel,
        low: u32,
        tried: &Tried,
        made: u32,
    ) -> Result<u32, AllocError>
        ensures others { self.new ≡ record self.old { least = self.new.least } }
        ensures least { IsLeastSince kernel.now.table tried.now made self.old self.new }
        ensures seen { HaveAtLeast self.old.common.items kernel.now.table low → OnOk result (IsSeen self.new kernel.now.table) }
        ensures low { HaveAtLeast self.old.common.items kernel.now.table low → IfOk result (HaveAtLeast self.old.common.items kernel.now.table) }
    {
        if self.common.is_empty() {
            return Ok(low);
        }
        if !self.may_have_fewer(low) {
            return Ok(low);
        }
        let service = kernel.service()?;
        let Some(fewest) = fewest_at(&self.common, service.entries()) else {
            return Ok(low);
        };
        let (address, ready) = fewest;
        if self.may_have_fewer(ready) {
            self.least = Some(Least {
                ready,
                address,
                tried: *tried,
                made,
            });
        }
        Ok(ready)
    }
}

/// How many workers live in a table. A kernel with 2^32 processes or more would want memory.
fn living_workers(kernel: &Kernel) -> Result<u32, AllocError>
    ensures { IfOk result (λ workers. workers ≡ living_in kernel.now.table) }
{
    let mut workers = 0u32;
    for place in 0..u32::MAX as usize {
        let Some(row) = kernel.row(place) else {
            return Ok(workers);
        };
        if is_living(&row) {
            workers += 1;
        }
    }
    Err(AllocError)
}

/// Whether this is a worker that has not exited.
fn is_living(row: &Row) -> bool
    ensures { result ≡ is_living_row row.now }
{
    match *row {
        Row::Worker { stance, .. } => stance != Stance::Exited,
        Row::Master { .. } | Row::Foreign { .. } => false,
    }
}

/// The first of the addresses that has the fewest workers, and how many these are.
fn fewest_at(addresses: &[Address], entries: &[Served]) -> Option<(Address, u32)>
    ensures { result ≡ fewest_from (map seen_served entries.now) None addresses.now }
{
    let mut fewest = None;
    for address in addresses {
        fewest = Some(fewer(fewest, address, ready_at(entries, address)));
    }
    fewest
}

/// The address with this number of workers, if it has fewer.
fn fewer(fewest: Option<(Address, u32)>, address: &Address, ready: u32) -> (Address, u32)
    ensures { result ≡ fewer fewest address.now ready }
{
    match fewest {
        Some(fewest) if ready >= fewest.1 => fewest,
        _ => (*address, ready),
    }
}

/// How many workers serve an address.
fn ready_at(entries: &[Served], address: &Address) -> u32
    ensures { result ≡ listed_at (map seen_served entries.now) address.now }
{
    for entry in entries {
        if is_of(entry, address) {
            return workers_in(&entry.counts);
        }
    }
    0
}

fn is_of(entry: &Served, address: &Address) -> bool
    ensures { result ≡ is_eq (address_cmp address.now entry.now.address) }
{
    address.bytes() == entry.address.bytes()
}

fn workers_in(counts: &[Count]) -> u32
    ensures { result ≡ min (sum_by (λ c. c.1) (map seen_count counts.now)) (2 ^ 32 - 1) }
{
    let mut sum = 0u32;
    for count in counts {
        sum = sum.saturating_add(count.workers);
    }
    sum
}

/// How many Ready workers each address has at least after a call in which nothing goes wrong, if it had so many before: a start,
/// a wait and a count take none away. What others take away is counted anew.
pub(crate) fn low_after(call: &Call, low: u32) -> u32
    ensures { result ≡ low_after call.now low }
{
    match call {
        Call::Fork(..) | Call::AwaitReady(..) | Call::AwaitGone(..) | Call::Census(_) => low,
        _ => 0,
    }
}

/// The addresses that the service before and the one that a target wants both name.
pub(crate) fn common_addresses(
    alloc: Global,
    kernel: &Kernel,
    state: &Record,
    target: &Target,
) -> Result<Vec<Address>, AllocError>
    requires { lacks_generation state.now target.now ≡ false }
    ensures { IfOk result (λ common. AreCommon kernel.now.table state.now target.now common.items) }
{
    let before = kernel.service()?;
    let wanted = want(alloc, state, target)?;
    shared_addresses(alloc, before.entries(), &wanted)
}

/// The addresses that both services list.
fn shared_addresses(
    alloc: Global,
    entries: &[Served],
    wanted: &Service,
) -> Result<Vec<Address>, AllocError>
    ensures { IfOk result (λ shared. AreShared (map seen_served entries.now) wanted.now shared.items) }
{
    let mut shared = Vec::new(alloc);
    for entry in entries {
        if wanted.has(&entry.address) {
            shared.push(entry.address)?;
        }
    }
    Ok(shared)
}
