//! The service that a target wants.
ghost use Rattle.std.specs.Prelude.{◌≡◌, false, IfOk, count_by};
ghost use Rattle.listener_set.specs.Numbers.{numbers_below};
ghost use Rattle.definitions.specs.Table.{IsSame};
ghost use Rattle.definitions.specs.Master.{served};
ghost use Rattle.definitions.specs.Master.{layout_of};
ghost use Rattle.definitions.specs.Master.{want, addresses_wanted, wanted_at, layout_wanted};
ghost use Rattle.service_state.specs.Targets.{lacks_generation};
ghost use Rattle.kernel_service.specs.Services.{at};
ghost use Rattle.service_state.specs.Wanted.{kept_count, is_counted};

use crate::posting::addresses_of_group;
use crate::record::Record;
use kernel_service::Service;
use listener_set::{Address, Generation, ListenerSet};
use std::alloc::{AllocError, Global};
use vocabulary::Target;

/// The service that a target wants of a running master: at each of its addresses so many workers of one generation as the
/// groups have that listen there.
///
/// A change of the number of workers, a mend and a reopening want the record's addresses, groups and generation: the number
/// that is asked for, the wanted one, and the workers that are ready. A reload wants the addresses, groups and workers of its
/// settings in the next configuration, an upgrade in the next image too, and a stop nothing. Where nobody is wanted an
/// address is a key without a count. No number of the target's generation may pass 4,294,967,295. The only refusal is
/// want of memory.
pub fn want(alloc: Global, state: &Record, target: &Target) -> Result<Service, AllocError>
    requires { lacks_generation state.now target.now ≡ false }
    ensures { IfOk result (λ s. IsSame (at s) (want state.now target.now)) }
{
    let addresses = addresses_wanted(state, target);
    let generation = state.generation_wanted(target);
    let mut service = Service::new(alloc);
    let all = addresses.as_slice();
    for address in all {
        let workers = wanted_at(state, target, address);
        service.add(address, kept_count(generation, workers))?;
    }
    Ok(service)
}

fn addresses_wanted(state: &Record, target: &Target) -> ListenerSet
    ensures { result ≡ addresses_wanted state.now target.now }
{
    match target {
        Target::Workers(_) | Target::Mend(_) | Target::Reopen => state.listeners.addresses(),
        Target::Reload(settings) | Target::Upgrade(settings) | Target::Attended(settings) => {
            settings.listeners
        }
        Target::Stop { .. } => ListenerSet::new(),
    }
}

/// How many workers a target wants at an address.
fn wanted_at(state: &Record, target: &Target, address: &Address) -> u32
    ensures { result ≡ wanted_at state.now target.now address.now }
{
    match target {
        Target::Workers(wanted) => served_below(state, target, *wanted, address),
        Target::Mend(_) => served_below(state, target, state.wanted, address),
        Target::Reopen => served_ready(state, target, address),
        Target::Reload(settings) | Target::Upgrade(settings) | Target::Attended(settings) => {
            served_below(state, target, settings.workers, address)
        }
        Target::Stop { .. } => 0,
    }
}

/// How many of the numbers below a bound are counted at an address.
fn served_below(state: &Record, target: &Target, bound: u32, address: &Address) -> u32
    ensures { result ≡ served (layout_wanted state.now target.now) (numbers_below bound) address.now }
{
    let mut served = 0;
    for number in 0..bound {
        if is_counted(state, target, number, address) {
            served += 1;
        }
    }
    served
}

/// How many of the ready numbers are counted at an address.
fn served_ready(state: &Record, target: &Target, address: &Address) -> u32
    ensures { result ≡ served (layout_wanted state.now target.now) state.now.ready address.now }
{
    let mut served = 0;
    for number in state.ready.iter() {
        if is_counted(state, target, number, address) {
            served += 1;
        }
    }
    served
}

/// Whether the group of a worker's number listens at an address.
fn is_counted(state: &Record, target: &Target, number: u32, address: &Address) -> bool
    ensures { result ≡ is_counted (layout_wanted state.now target.now) address.now number }
{
    match target {
        Target::Reload(settings) | Target::Upgrade(settings) | Target::Attended(settings) => {
            let own = addresses_of_group(settings, settings.groups.group_of(number));
            own.contains(address)
        }
        _ => is_counted_now(state, number, address),
    }
}

/// The same, of the groups of the record.
fn is_counted_now(state: &Record, number: u32, address: &Address) -> bool
    ensures { result ≡ is_counted (layout_of state.now) address.now number }
{
    match state.posts.given(number) {
        None => state.listeners.holds(address),
        Some(set) => state.listeners.only(&set).holds(address),
    }
}

/// The count that a service keeps of so many workers: none where there is nobody.
fn kept_count(generation: Generation, workers: u32) -> Option<(Generation, u32)>
    ensures { result ≡ kept_count generation workers }
{
    if workers == 0 {
        None
    } else {
        Some((generation, workers))
    }
}
