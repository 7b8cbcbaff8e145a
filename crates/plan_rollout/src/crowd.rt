//! The old workers, of whom some quit at each step.
ghost use Rattle.std.specs.Prelude.{◌≡◌, ℕ, ◌≤◌, List, length, reverse, EachIndex, slice_index};
ghost use Rattle.vocabulary.specs.Settings.{Settings as Said};
ghost use Rattle.definitions.specs.Master.{Record as Known};
ghost use Rattle.definitions.specs.Plans.{staying, is_enough};
ghost use Rattle.plan_rollout.specs.Spots.{all_members};
ghost use Rattle.plan_rollout.specs.Counts.{AreServed};
ghost use Rattle.plan_rollout.specs.Sides.{AreOld};

use crate::tally::{has_spare, spots_at, take_at};
use listener_set::{MOST_LISTENERS, Numbers};
use worker_groups::Groups;

/// The old workers by their groups: where those of each group listen, who they are, and how many have to serve at each
/// place.
#[derive(Clone, Copy)]
pub(crate) struct Crowd<'a> {
    pub(crate) groups: &'a Groups,
    pub(crate) spots: &'a [Numbers],
    pub(crate) members: &'a [Numbers],
    pub(crate) least: &'a [u32],
}

/// Of the old workers that are left those who stay: downwards, one after another quits where enough serve without it. Where
/// one of a group may not quit, none of the group may any more.
pub(crate) fn staying(crowd: &Crowd<'_>, counts: &mut [u32], left: &Numbers) -> Numbers
    requires few { length counts.old ≤ MOST_LISTENERS }
    requires same { length crowd.now.least.now ≡ length counts.old }
    requires spots { length crowd.now.spots.now ≡ length crowd.now.groups.now }
    requires members { length crowd.now.members.now ≡ length crowd.now.groups.now }
    requires all { crowd.now.members.now ≡ all_members crowd.now.groups.now }
    ensures same { length counts.new ≡ length counts.old }
    ensures fewer { EachIndex counts.new (λ i. slice_index counts.new i ≤ slice_index counts.old i) }
    ensures stay { (r : Known) (s : Said) (started : List ℕ) → AreOld r s crowd.now → AreServed r s started left.now counts.old
        → (result ≡ staying (is_enough r s started) left.now (reverse left.now)) × AreServed r s started result counts.new }
{
    let _ = crowd.groups.as_slice();
    let mut stay = *left;
    let mut rest = *left;
    while let Some(number) = rest.highest() {
        let _ = stay.len();
        let spots = spots_at(crowd.groups, crowd.spots, number);
        let has_spare = has_spare(counts, crowd.least, &spots);
        if !has_spare {
            rest = rest.minus(&spots_at(crowd.groups, crowd.members, number));
            continue;
        }
        rest.remove(number);
        stay.remove(number);
        take_at(counts, &spots);
    }
    stay
}
