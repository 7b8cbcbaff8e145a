//! The four stretches of a plan with two parts: the steps before them, the new master's part, the old one's, and the rest.
ghost use Rattle.std.specs.Prelude.{◌≡◌, [], ◌∷◌, ◌++◌, ◌≤◌, ◌<◌, IsTrue, IfOk, length, map, filter, nat_lt, nat_eq, slice_index};
ghost use Rattle.call_laws.specs.Lengths.{height};
ghost use Rattle.plan_steps.specs.Steps.{all_below, all_lead_back, trees_after};
ghost use Rattle.plan_steps.specs.Numbering.{all_within};
ghost use Rattle.plan_steps.specs.Stretches.{to_split, one_more, farthest_among, aside, asides_among, beside_height, is_before, AreOrders};

use crate::ordering::order_from;
use crate::{Next, Parts, Place, PlanEdge, Step};
use std::alloc::{AllocError, Global};
use vocabulary::End;

/// One more than the greatest number of steps on a path from each step to where the parts begin; 0 where there is none.
pub(crate) fn splits_of(alloc: Global, steps: &[Step]) -> Result<Vec<u32>, AllocError>
    requires few { length steps.now ≤ 65536 }
    requires back { IsTrue (all_lead_back 0 steps.now) }
    ensures { IfOk result (λ splits. splits.items ≡ map to_split (trees_after [] steps.now)) }
{
    let mut splits = Vec::with_capacity(alloc, steps.len())?;
    for step in steps {
        let farthest = farthest_behind(&step.edges, &splits);
        splits.push(one_more(farthest))?;
    }
    Ok(splits)
}

/// One more, where it is not 0.
fn one_more(n: u32) -> u32
    requires { n ≤ 65537 }
    ensures { result ≡ one_more n }
{
    if n == 0 { 0 } else { n + 1 }
}

/// One more than the greatest number of steps on a path from these edges to where the parts begin; 0 where there is none.
fn farthest_behind(edges: &[PlanEdge], splits: &[u32]) -> u32
    requires { IsTrue (all_below (length splits.now) edges.now) }
    ensures { result ≡ farthest_among splits.now edges.now }
{
    let mut farthest = 0;
    for edge in edges {
        let there = match edge.next {
            Next::Over(End::Split) | Next::Both(..) => 1,
            Next::Over(_) => 0,
            Next::To(place) => splits[place.0 as usize],
        };
        farthest = farthest.max(there);
    }
    farthest
}

/// Those of these places that lead to the parts.
fn leading(alloc: Global, places: &[u32], splits: &[u32]) -> Result<Vec<u32>, AllocError>
    requires { IsTrue (all_within (length splits.now) places.now) }
    ensures { IfOk result (λ kept. kept.items ≡ filter (λ k. nat_lt 0 (slice_index splits.now k)) places.now) }
{
    let mut kept = Vec::new(alloc);
    for place in places {
        if splits[*place as usize] > 0 {
            kept.push(*place)?;
        }
    }
    Ok(kept)
}

/// Where the rest begins: the places at which the plan goes on, and those that are reached without leading to the parts.
pub(crate) fn roots_of_rest(
    alloc: Global,
    reached: &[u32],
    splits: &[u32],
    parts: &Parts,
) -> Result<Vec<u32>, AllocError>
    requires { IsTrue (all_within (length splits.now) reached.now) }
    ensures { IfOk result (λ roots. roots.items ≡ parts.now.ready.0 ∷ parts.now.back.0 ∷ filter (λ k. nat_eq (slice_index splits.now k) 0) reached.now) }
{
    let mut roots = Vec::new(alloc);
    roots.push(parts.ready.0)?;
    roots.push(parts.back.0)?;
    for place in reached {
        if splits[*place as usize] == 0 {
            roots.push(*place)?;
        }
    }
    Ok(roots)
}

/// The greatest height of what each step leads to that does not itself lead to where the parts begin.
pub(crate) fn asides_of(
    alloc: Global,
    steps: &[Step],
    heights: &[u32],
    splits: &[u32],
) -> Result<Vec<u32>, AllocError>
    requires back { IsTrue (all_lead_back 0 steps.now) }
    requires heights { heights.now ≡ map height (trees_after [] steps.now) }
    requires splits { splits.now ≡ map to_split (trees_after [] steps.now) }
    ensures { IfOk result (λ asides. asides.items ≡ map aside (trees_after [] steps.now)) }
{
    let mut asides = Vec::with_capacity(alloc, steps.len())?;
    for (place, step) in steps.iter().enumerate() {
        let behind = aside_behind(&step.edges, &asides);
        asides.push(aside_at(splits[place], heights[place], behind))?;
    }
    Ok(asides)
}

/// The height of a step that does not lead to where the parts begin; else what is greatest behind its edges.
fn aside_at(split: u32, height: u32, behind: u32) -> u32
    ensures { result ≡ beside_height split height behind }
{
    if split == 0 { height } else { behind }
}

/// The greatest of these numbers behind some edges.
fn aside_behind(edges: &[PlanEdge], asides: &[u32]) -> u32
    requires { IsTrue (all_below (length asides.now) edges.now) }
    ensures { result ≡ asides_among asides.now edges.now }
{
    let mut greatest = 0;
    for edge in edges {
        if let Next::To(place) = edge.next {
            greatest = greatest.max(asides[place.0 as usize]);
        }
    }
    greatest
}

/// The places of all four stretches, of which the roots of the rest are given.
pub(crate) fn order_of_parts(
    alloc: Global,
    steps: &[Step],
    reached: &[u32],
    splits: &[u32],
    parts: &Parts,
    roots: &[u32],
) -> Result<Vec<u32>, AllocError>
    requires few { length steps.now ≤ 65536 }
    requires back { IsTrue (all_lead_back 0 steps.now) }
    requires splits { splits.now ≡ map to_split (trees_after [] steps.now) }
    requires reached { IsTrue (all_within (length splits.now) reached.now) }
    requires new { parts.now.new.0 < length steps.now }
    requires old { parts.now.old.0 < length steps.now }
    requires roots { IsTrue (all_within (length steps.now) roots.now) }
    ensures { IfOk result (λ order. AreOrders steps.now reached.now parts.now roots.now order.items) }
{
    let mut order = leading(alloc, reached, splits)?;
    let new = order_from(alloc, steps, &[parts.new.0])?;
    order.extend_from_slice(&new)?;
    let old = order_from(alloc, steps, &[parts.old.0])?;
    order.extend_from_slice(&old)?;
    let rest = order_from(alloc, steps, roots)?;
    order.extend_from_slice(&rest)?;
    Ok(order)
}
