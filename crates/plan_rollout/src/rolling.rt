//! The steps of a reload in numbers.
ghost use Rattle.std.specs.Prelude.{◌≡◌, ◌+◌, ◌≤◌, ◌&&◌, [], nat_lt, length, IfOk, EachIndex, slice_index};
ghost use Rattle.std.specs.List.{range_with_len};
ghost use Rattle.vocabulary.specs.Settings.{Settings as Said};
ghost use Rattle.definitions.specs.Master.{Record as Known};
ghost use Rattle.definitions.specs.Plans.{rollout_of};
ghost use Rattle.plan_rollout.specs.Spots.{all_members};
ghost use Rattle.plan_rollout.specs.Counts.{AreServed};
ghost use Rattle.plan_rollout.specs.Sides.{AreOld, AreNew};

use crate::crowd::{Crowd, staying};
use crate::spots::{all_members, new_spots, old_spots};
use crate::tally::{count_in, lowered, tallied};
use listener_set::{MOST_LISTENERS, Numbers, WORKER_LIMIT};
use service_state::Record;
use std::alloc::{AllocError, Global};
use std::marker::Model;
use vocabulary::Settings;
use worker_groups::Groups;

/// A step but the last: the new workers that it starts, and the old ones that quit then.
#[derive(Clone, Copy, Debug)]
pub struct RolloutStep {
    pub starts: Numbers,
    pub quits: Numbers,
}

impl Model for RolloutStep {
    ghost use Rattle.definitions.specs.Plans.{Step};

    ghost Value = { Step };

    ghost view = { λ s. record { starts = s.starts; quits = s.quits } };

    ghost inverse = { λ v. record { starts = v.starts; quits = v.quits } };
}

/// The steps of a reload but the last; and of the last one the new workers that it starts, and the old ones that are left.
#[derive(Drop)]
pub struct Rollout {
    pub steps: Vec<RolloutStep>,
    pub last: Numbers,
    pub left: Numbers,
}

impl Model for Rollout {
    ghost use Rattle.definitions.specs.Plans.{Rollout as Numbered};

    ghost Value = { Numbered };

    ghost view = { λ r. record { steps = r.steps.items; last = r.last; left = r.left } };
}

/// So many numbers, from one on.
fn numbers_from(first: u32, count: u32) -> Numbers
    requires { first + count ≤ WORKER_LIMIT }
    ensures { result ≡ range_with_len first count }
{
    let mut numbers = Numbers::none();
    for offset in 0..count {
        numbers.add(first + offset);
    }
    numbers
}

/// The new workers: where those of each group listen, and how many there are.
#[derive(Clone, Copy)]
pub(crate) struct Newcomers<'a> {
    pub(crate) groups: &'a Groups,
    pub(crate) spots: &'a [Numbers],
    pub(crate) workers: u32,
}

/// Whether more new workers are to come than one step starts.
fn is_more(surge: u32, workers: u32) -> bool
    ensures { result ≡ (nat_lt 0 surge && nat_lt surge workers) }
{
    0 < surge && surge < workers
}

/// The steps, where so many serve at each place at first, and these old workers are ready.
fn steps_of(
    alloc: Global,
    crowd: &Crowd<'_>,
    newcomers: &Newcomers<'_>,
    counts: &mut [u32],
    ready: &Numbers,
    surge: u32,
) -> Result<Rollout, AllocError>
    requires few { length counts.old ≤ MOST_LISTENERS }
    requires room { EachIndex counts.old (λ i. slice_index counts.old i ≤ WORKER_LIMIT) }
    requires least { length crowd.now.least.now ≡ length counts.old }
    requires spots { length crowd.now.spots.now ≡ length crowd.now.groups.now }
    requires members { length crowd.now.members.now ≡ length crowd.now.groups.now }
    requires all { crowd.now.members.now ≡ all_members crowd.now.groups.now }
    requires new_spots { length newcomers.now.spots.now ≡ length newcomers.now.groups.now }
    requires workers { newcomers.now.workers ≤ WORKER_LIMIT }
    ensures { IfOk result (λ rollout. (r : Known) (s : Said) → AreOld r s crowd.now → AreNew r s newcomers.now → ready.now ≡ r.ready
        → AreServed r s [] ready.now counts.old → rollout ≡ rollout_of r s surge) }
{
    let _ = newcomers.groups.as_slice();
    let mut steps = Vec::new(alloc);
    let mut left = *ready;
    let mut started = 0;
    while is_more(surge, newcomers.workers - started) {
        let starts = numbers_from(started, surge);
        count_in(counts, newcomers.groups, newcomers.spots, &starts);
        started += surge;
        let stay = staying(crowd, counts, &left);
        let quits = left.minus(&stay);
        steps.push(RolloutStep { starts, quits })?;
        left = stay;
    }
    let last = numbers_from(started, newcomers.workers - started);
    Ok(Rollout { steps, last, left })
}

/// The rollout of new settings: as long as more than `surge` new workers are to be started, a step starts so many, and then
/// as many of the old ones quit as may.
pub fn roll_out(
    alloc: Global,
    state: &Record,
    settings: &Settings,
    surge: u32,
) -> Result<Rollout, AllocError>
    ensures { IfOk result (λ rollout. rollout ≡ rollout_of state.now settings.now surge) }
{
    let addresses = state.listeners.addresses();
    let (groups, workers) = (state.posts.groups(), settings.workers);
    let spots = old_spots(alloc, state, &addresses)?;
    let members = all_members(alloc, groups)?;
    let new_spots = new_spots(alloc, settings, &addresses)?;
    let places = addresses.len();
    let all = Numbers::below(workers);
    let mut counts = tallied(alloc, places, groups, &spots, &state.ready)?;
    let wanted = tallied(alloc, places, &settings.groups, &new_spots, &all)?;
    let least = lowered(wanted, &counts);
    let crowd = Crowd {
        groups,
        spots: &spots,
        members: &members,
        least: &least,
    };
    let newcomers = Newcomers {
        groups: &settings.groups,
        spots: &new_spots,
        workers,
    };
    steps_of(alloc, &crowd, &newcomers, &mut counts, &state.ready, surge)
}
