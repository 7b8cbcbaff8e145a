//! The walk that meets each step of a plan, first edge first.
ghost use Rattle.std.specs.Prelude.{◌≡◌, ◌++◌, ◌≤◌, IsTrue, IfOk, length, reverse, vec_len};
ghost use Rattle.plan_steps.specs.Steps.{all_lead_back};
ghost use Rattle.plan_steps.specs.Numbering.{places_behind, all_within, IsWalk};

use crate::{Next, PlanEdge, Step};
use std::alloc::{AllocError, Global};

/// The places that a walk from some places meets, in the order in which it first meets them: a step, then what is
/// behind its first edge, then what is behind its second, and so on; from the first of these places, then from the next.
pub(crate) fn walk(alloc: Global, steps: &[Step], roots: &[u32]) -> Result<Vec<u32>, AllocError>
    requires few { length steps.now ≤ 65536 }
    requires back { IsTrue (all_lead_back 0 steps.now) }
    requires roots { IsTrue (all_within (length steps.now) roots.now) }
    ensures { IfOk result (λ met. IsWalk steps.now roots.now met.items) }
{
    let mut is_met = vec![in alloc; false; steps.len()]?;
    let mut met = Vec::new(alloc);
    let mut waiting = Vec::from_slice(alloc, roots)?;
    waiting.reverse();
    while let Some(place) = waiting.pop() {
        let here = place as usize;
        if is_met[here] {
            continue;
        }
        is_met[here] = true;
        met.push(place)?;
        push_behind(&mut waiting, &steps[here].edges)?;
    }
    Ok(met)
}

/// Pushes the places behind these edges, the last first.
fn push_behind(waiting: &mut Vec<u32>, edges: &[PlanEdge]) -> Result<(), AllocError>
    ensures { IfOk result (λ _. waiting.new.items ≡ waiting.old.items ++ reverse (places_behind edges.now)) }
{
    for edge in edges.iter().rev() {
        let Next::To(place) = edge.next else {
            continue;
        };
        waiting.push(place.0)?;
    }
    Ok(())
}
