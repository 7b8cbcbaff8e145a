//! What a plan needs to know of the steps of a draft: how tall they are and how deep they lie.
ghost use Rattle.std.specs.Prelude.{◌≡◌, ℕ, slice_index, [], ◌+◌, ◌≤◌, IsTrue, IfOk, length, map};
ghost use Rattle.call_laws.specs.Lengths.{height};
ghost use Rattle.plan_steps.specs.Steps.{all_below, all_lead_back, trees_after};
ghost use Rattle.plan_steps.specs.Numbering.{highest_behind, deepened, all_within, AreDepths};

use crate::{Next, PlanEdge, Step};
use std::alloc::{AllocError, Global};

/// How many steps there are on the longest path from each step.
pub(crate) fn heights_of(alloc: Global, steps: &[Step]) -> Result<Vec<u32>, AllocError>
    requires few { length steps.now ≤ 65536 }
    requires back { IsTrue (all_lead_back 0 steps.now) }
    ensures heights { IfOk result (λ heights. heights.items ≡ map height (trees_after [] steps.now)) }
    ensures within { IfOk result (λ heights. (k : ℕ) → slice_index heights.items k ≤ 65536) }
{
    let mut heights = Vec::with_capacity(alloc, steps.len())?;
    for step in steps {
        let tallest = tallest_behind(&step.edges, &heights);
        heights.push(tallest + 1)?;
    }
    Ok(heights)
}

/// The greatest height of a step behind these edges; 0 where all lead to ends.
fn tallest_behind(edges: &[PlanEdge], heights: &[u32]) -> u32
    requires { IsTrue (all_below (length heights.now) edges.now) }
    ensures { result ≡ highest_behind heights.now edges.now }
{
    let mut tallest = 0;
    for edge in edges {
        if let Next::To(place) = edge.next {
            tallest = tallest.max(heights[place.0 as usize]);
        }
    }
    tallest
}

/// The greatest number of steps on a path from one of some places to each; 0 where there is none.
pub(crate) fn depths_from(
    alloc: Global,
    steps: &[Step],
    roots: &[u32],
) -> Result<Vec<u32>, AllocError>
    requires few { length steps.now ≤ 65536 }
    requires back { IsTrue (all_lead_back 0 steps.now) }
    requires roots { IsTrue (all_within (length steps.now) roots.now) }
    ensures { IfOk result (λ depths. AreDepths steps.now roots.now depths.items) }
{
    let mut depths = vec![in alloc; 0; steps.len()]?;
    for root in roots {
        depths[*root as usize] = 1;
    }
    for place in (0..steps.len()).rev() {
        let depth = depths[place];
        if depth > 0 {
            deepen(&mut depths, &steps[place].edges, depth + 1);
        }
    }
    Ok(depths)
}

/// Lays the steps behind these edges at least so deep.
fn deepen(depths: &mut [u32], edges: &[PlanEdge], depth: u32)
    requires { IsTrue (all_below (length depths.old) edges.now) }
    ensures { depths.new ≡ deepened depth edges.now depths.old }
{
    for edge in edges {
        if let Next::To(place) = edge.next {
            let there = place.0 as usize;
            depths[there] = depths[there].max(depth);
        }
    }
}
