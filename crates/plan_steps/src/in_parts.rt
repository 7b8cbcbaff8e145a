//! The steps of a plan with the parts of two masters, out of those of a draft.
ghost use Rattle.std.specs.Prelude.{◌≡◌, ◌≤◌, ◌<◌, IfOk, IsTrue, length, slice_index};
ghost use Rattle.plan_steps.specs.Steps.{all_lead_back};
ghost use Rattle.plan_steps.specs.Stretches.{AreParts, AreParted, IsPartedPlan, longest_at};

use crate::numbering::heights_of;
use crate::ordering::{numbered, numbers_of, order_from};
use crate::stretches::{asides_of, order_of_parts, roots_of_rest, splits_of};
use crate::{Parts, Place, Step};
use std::alloc::{AllocError, Global};

/// The steps of a plan with two parts, in the order of their numbers.
#[derive(Drop)]
pub struct PartedSteps {
    pub steps: Vec<Step>,
    /// The numbers of the parts' places.
    pub parts: Parts,
    /// The sum of the steps on the longest path of each of the four stretches.
    pub longest: u32,
}

/// The steps of the plan that begins at a place of a draft and has these parts. Four stretches are numbered one after
/// another, each as `number_steps` numbers a plan: the steps that lead to the parts, the new master's part, the old
/// one's, and the rest. Refused only where memory is.
pub fn number_in_parts(
    alloc: Global,
    steps: Vec<Step>,
    first: Place,
    parts: &Parts,
) -> Result<PartedSteps, AllocError>
    requires few { length steps.items ≤ 65536 }
    requires back { IsTrue (all_lead_back 0 steps.items) }
    requires first { first.0 < length steps.items }
    requires parts { AreParts steps.items first.0 parts.now }
    ensures numbered { IfOk result (λ plan. IsPartedPlan steps.items first.0 parts.now plan.steps.items plan.parts) }
    ensures longest { IfOk result (λ plan. plan.longest ≡ longest_at steps.items first.0 parts.now) }
{
    let longest = longest_in_parts(alloc, &steps, first, parts)?;
    let order = parts_order(alloc, &steps, first, parts)?;
    let numbers = numbers_of(alloc, &order, steps.len())?;
    let told = numbered_parts(parts, &numbers);
    let plan = numbered(alloc, steps, &order, &numbers)?;
    Ok(PartedSteps {
        steps: plan,
        parts: told,
        longest,
    })
}

/// The number of steps on the longest path: the sum over the four stretches.
fn longest_in_parts(
    alloc: Global,
    steps: &[Step],
    first: Place,
    parts: &Parts,
) -> Result<u32, AllocError>
    requires few { length steps.now ≤ 65536 }
    requires back { IsTrue (all_lead_back 0 steps.now) }
    requires first { first.0 < length steps.now }
    requires parts { AreParts steps.now first.0 parts.now }
    ensures { IfOk result (λ longest. longest ≡ longest_at steps.now first.0 parts.now) }
{
    let heights = heights_of(alloc, steps)?;
    let splits = splits_of(alloc, steps)?;
    let asides = asides_of(alloc, steps, &heights, &splits)?;
    let before = splits[first.0 as usize] - 1;
    let both = heights[parts.new.0 as usize] + heights[parts.old.0 as usize];
    let rest = heights[parts.ready.0 as usize].max(heights[parts.back.0 as usize]);
    Ok(before + both + rest.max(asides[first.0 as usize]))
}

/// The places of all four stretches of a plan with two parts.
fn parts_order(
    alloc: Global,
    steps: &[Step],
    first: Place,
    parts: &Parts,
) -> Result<Vec<u32>, AllocError>
    requires few { length steps.now ≤ 65536 }
    requires back { IsTrue (all_lead_back 0 steps.now) }
    requires first { first.0 < length steps.now }
    requires parts { AreParts steps.now first.0 parts.now }
    ensures { IfOk result (λ order. AreParted steps.now first.0 parts.now order.items) }
{
    let splits = splits_of(alloc, steps)?;
    let reached = order_from(alloc, steps, &[first.0])?;
    let roots = roots_of_rest(alloc, &reached, &splits, parts)?;
    let order = order_of_parts(alloc, steps, &reached, &splits, parts, &roots)?;
    Ok(order)
}

/// These parts, with these numbers for their places.
fn numbered_parts(parts: &Parts, numbers: &[u32]) -> Parts
    requires new { parts.now.new.0 < length numbers.now }
    requires old { parts.now.old.0 < length numbers.now }
    requires ready { parts.now.ready.0 < length numbers.now }
    requires back { parts.now.back.0 < length numbers.now }
    ensures new { result.new.0 ≡ slice_index numbers.now parts.now.new.0 }
    ensures old { result.old.0 ≡ slice_index numbers.now parts.now.old.0 }
    ensures ready { result.ready.0 ≡ slice_index numbers.now parts.now.ready.0 }
    ensures back { result.back.0 ≡ slice_index numbers.now parts.now.back.0 }
{
    Parts {
        new: Place(numbers[parts.new.0 as usize]),
        old: Place(numbers[parts.old.0 as usize]),
        ready: Place(numbers[parts.ready.0 as usize]),
        back: Place(numbers[parts.back.0 as usize]),
    }
}
