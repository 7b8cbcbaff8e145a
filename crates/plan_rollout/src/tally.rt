//! How many workers serve at each of some places.
ghost use Rattle.std.specs.Prelude.{◌≡◌, ◌+◌, ◌<◌, ◌≤◌, ◌↔◌, [], length, get_or, min, replicate, IsTrue, IfOk, EachIndex, slice_index};
ghost use Rattle.worker_groups.specs.Groups.{group_of};
ghost use Rattle.plan_rollout.specs.Spots.{one_at, serving_at};

use listener_set::{Numbers, WORKER_LIMIT};
use std::alloc::{AllocError, Global};
use worker_groups::Groups;

/// One, where a set has a place.
fn one_at(spots: &Numbers, place: usize) -> u32
    requires { place < WORKER_LIMIT }
    ensures { result ≡ one_at spots.now place }
{
    if spots.has(place as u32) { 1 } else { 0 }
}

/// One more serves at each of these places.
fn add_at(counts: &mut [u32], spots: &Numbers)
    requires few { length counts.old ≤ WORKER_LIMIT }
    requires room { EachIndex counts.old (λ i. slice_index counts.old i < 65536) }
    ensures same { length counts.new ≡ length counts.old }
    ensures each { EachIndex counts.new (λ i. slice_index counts.new i ≡ slice_index counts.old i + one_at spots.now i) }
{
    for place in 0..counts.len() {
        counts[place] += one_at(spots, place);
    }
}

/// One less serves at each of these places.
pub(crate) fn take_at(counts: &mut [u32], spots: &Numbers)
    requires few { length counts.old ≤ WORKER_LIMIT }
    requires some { EachIndex counts.old (λ i. one_at spots.now i ≤ slice_index counts.old i) }
    ensures same { length counts.new ≡ length counts.old }
    ensures each { EachIndex counts.new (λ i. slice_index counts.new i + one_at spots.now i ≡ slice_index counts.old i) }
{
    for place in 0..counts.len() {
        counts[place] -= one_at(spots, place);
    }
}

/// Whether no fewer than the least would serve at each place, if one less served at these.
pub(crate) fn has_spare(counts: &[u32], least: &[u32], spots: &Numbers) -> bool
    requires few { length counts.now ≤ WORKER_LIMIT }
    requires same { length least.now ≡ length counts.now }
    ensures { IsTrue result ↔ EachIndex counts.now (λ i. slice_index least.now i + one_at spots.now i ≤ slice_index counts.now i) }
{
    for place in 0..counts.len() {
        let needed = u64::from(least[place]) + u64::from(one_at(spots, place));
        if u64::from(counts[place]) < needed {
            return false;
        }
    }
    true
}

/// The places of the group of a worker's number.
pub(crate) fn spots_at(groups: &Groups, spots: &[Numbers], number: u32) -> Numbers
    requires { length spots.now ≡ length groups.now }
    ensures { result ≡ get_or spots.now (group_of groups.now number) [] }
{
    let _ = groups.as_slice();
    spots[groups.group_of(number)]
}

/// These workers serve at the places of their groups.
pub(crate) fn count_in(counts: &mut [u32], groups: &Groups, spots: &[Numbers], numbers: &Numbers)
    requires few { length counts.old ≤ WORKER_LIMIT }
    requires each_group { length spots.now ≡ length groups.now }
    requires room { EachIndex counts.old (λ i. slice_index counts.old i ≤ 2048) }
    ensures same { length counts.new ≡ length counts.old }
    ensures each { EachIndex counts.new (λ i. slice_index counts.new i ≡ slice_index counts.old i + serving_at groups.now spots.now numbers.now i) }
    ensures most { EachIndex counts.new (λ i. slice_index counts.new i ≤ slice_index counts.old i + length numbers.now) }
    ensures numbers { length numbers.now ≤ WORKER_LIMIT }
{
    for number in numbers.iter() {
        add_at(counts, &spots_at(groups, spots, number));
    }
}

/// How many of these workers serve at each of so many places.
pub(crate) fn tallied(
    alloc: Global,
    places: usize,
    groups: &Groups,
    spots: &[Numbers],
    numbers: &Numbers,
) -> Result<Vec<u32>, AllocError>
    requires few { places ≤ WORKER_LIMIT }
    requires each_group { length spots.now ≡ length groups.now }
    ensures count { IfOk result (λ counts. length counts.items ≡ places) }
    ensures each { IfOk result (λ counts. EachIndex counts.items (λ i. slice_index counts.items i ≡ serving_at groups.now spots.now numbers.now i)) }
    ensures most { IfOk result (λ counts. EachIndex counts.items (λ i. slice_index counts.items i ≤ WORKER_LIMIT)) }
{
    let mut counts = vec![in alloc; 0; places]?;
    count_in(&mut counts, groups, spots, numbers);
    Ok(counts)
}

/// Lowers each count to the one of another list, where that is lower.
fn lower(counts: &mut [u32], others: &[u32])
    requires { length others.now ≡ length counts.old }
    ensures same { length counts.new ≡ length counts.old }
    ensures each { EachIndex counts.new (λ i. slice_index counts.new i ≡ min (slice_index counts.old i) (slice_index others.now i)) }
{
    for place in 0..counts.len() {
        counts[place] = counts[place].min(others[place]);
    }
}

/// The lower one of each two counts.
pub(crate) fn lowered(counts: Vec<u32>, others: &[u32]) -> Vec<u32>
    requires { length others.now ≡ length counts.items }
    ensures same { length result.items ≡ length counts.items }
    ensures each { EachIndex result.items (λ i. slice_index result.items i ≡ min (slice_index counts.items i) (slice_index others.now i)) }
{
    let mut least = counts;
    lower(&mut least, others);
    least
}
