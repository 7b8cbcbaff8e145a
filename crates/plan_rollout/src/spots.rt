//! Where the workers of each group listen, as places in the list of a record's addresses.
ghost use Rattle.std.specs.Prelude.{◌≡◌, ◌≤◌, ◌<◌, ◌==◌, cond, filter, length, IfOk};
ghost use Rattle.listener_set.specs.AddressList.{has};
ghost use Rattle.listener_set.specs.Numbers.{numbers_below, with_number};
ghost use Rattle.worker_groups.specs.Groups.{group_of};
ghost use Rattle.definitions.specs.Master.{addresses_of_group, fds_in, layout_of, layout_in, listeners_under};
ghost use Rattle.plan_rollout.specs.Spots.{places_of, spots_of, all_spots, all_members};

use listener_set::{Address, ListenerSet, MOST_LISTENERS, Numbers, WORKER_LIMIT};
use master_listeners::Listeners;
use service_state::Record;
use std::alloc::{AllocError, Global};
use vocabulary::Settings;
use worker_groups::Groups;

/// Whether a list has an address.
fn is_among(own: &[Address], address: &Address) -> bool
    ensures { result ≡ has own.now address.now }
{
    own.contains(address)
}

/// A set with a number, or without it.
fn with_number_if(numbers: &Numbers, number: u32, is_there: bool) -> Numbers
    requires { number < WORKER_LIMIT }
    ensures { result ≡ cond is_there (with_number numbers.now number) numbers.now }
{
    let mut with = *numbers;
    if is_there {
        with.add(number);
    }
    with
}

/// The places of those of the addresses that another list has.
fn places_of(addresses: &[Address], own: &[Address]) -> Numbers
    requires { length addresses.now ≤ MOST_LISTENERS }
    ensures { result ≡ places_of own.now addresses.now }
{
    let mut places = Numbers::none();
    for place in 0..addresses.len() {
        let is_own = is_among(own, &addresses[place]);
        places = with_number_if(&places, place as u32, is_own);
    }
    places
}

/// The addresses of the group at a place, counted from 0.
fn addresses_of_group(settings: &Settings, place: usize) -> &[Address]
    ensures { result.now ≡ addresses_of_group settings.now.groups settings.now.listeners place }
{
    let mut rest = settings.listeners.as_slice();
    let groups = settings.groups.as_slice();
    for (index, group) in groups.iter().enumerate() {
        let (own, more) = rest.split_at(group.addresses as usize);
        if index == place {
            return own;
        }
        rest = more;
    }
    &[]
}

/// Where the new workers of a group listen.
fn spots_of_new(settings: &Settings, addresses: &ListenerSet, place: usize) -> Numbers
    ensures { result ≡ spots_of (layout_in settings.now.groups settings.now.listeners) addresses.now place }
{
    places_of(addresses.as_slice(), addresses_of_group(settings, place))
}

/// The listeners of the old workers of a group.
fn listeners_of(state: &Record, place: usize) -> Listeners
    ensures { result ≡ listeners_under (fds_in state.now.posts place) state.now.listeners }
{
    match state.posts.given_in(place) {
        None => state.listeners,
        Some(set) => state.listeners.only(&set),
    }
}

/// Where the old workers of a group listen.
fn spots_of_old(state: &Record, addresses: &ListenerSet, place: usize) -> Numbers
    ensures { result ≡ spots_of (layout_of state.now) addresses.now place }
{
    let held = listeners_of(state, place);
    let own = held.addresses();
    places_of(addresses.as_slice(), own.as_slice())
}

/// Where the new workers of each group listen.
pub(crate) fn new_spots(
    alloc: Global,
    settings: &Settings,
    addresses: &ListenerSet,
) -> Result<Vec<Numbers>, AllocError>
    ensures { IfOk result (λ spots. spots.items ≡ all_spots (layout_in settings.now.groups settings.now.listeners) addresses.now) }
{
    let mut spots = Vec::new(alloc);
    let groups = settings.groups.as_slice().len();
    for place in 0..groups {
        spots.push(spots_of_new(settings, addresses, place))?;
    }
    Ok(spots)
}

/// Where the old workers of each group listen.
pub(crate) fn old_spots(
    alloc: Global,
    state: &Record,
    addresses: &ListenerSet,
) -> Result<Vec<Numbers>, AllocError>
    ensures { IfOk result (λ spots. spots.items ≡ all_spots (layout_of state.now) addresses.now) }
{
    let mut spots = Vec::new(alloc);
    let groups = state.posts.groups().as_slice().len();
    for place in 0..groups {
        spots.push(spots_of_old(state, addresses, place))?;
    }
    Ok(spots)
}

/// The numbers below a limit that are of a group.
fn members_below(groups: &Groups, place: usize, limit: u32) -> Numbers
    requires { limit ≤ WORKER_LIMIT }
    ensures { result ≡ filter (λ k. group_of groups.now k == place) (numbers_below limit) }
{
    let mut members = Numbers::none();
    for number in 0..limit {
        members = with_number_if(&members, number, groups.group_of(number) == place);
    }
    members
}

/// The worker numbers of each group.
pub(crate) fn all_members(alloc: Global, groups: &Groups) -> Result<Vec<Numbers>, AllocError>
    ensures { IfOk result (λ members. members.items ≡ all_members groups.now) }
{
    let mut members = Vec::new(alloc);
    let count = groups.as_slice().len();
    for place in 0..count {
        members.push(members_below(groups, place, WORKER_LIMIT))?;
    }
    Ok(members)
}
