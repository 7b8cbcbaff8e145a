//! The steps of a plan, out of those of a draft.
ghost use Rattle.std.specs.Prelude.{◌≡◌, ◌≤◌, ◌<◌, IfOk, IsTrue, length};
ghost use Rattle.call_laws.specs.Lengths.{height};
ghost use Rattle.plan_steps.specs.Steps.{all_lead_back, at_place};
ghost use Rattle.plan_steps.specs.Numbering.{IsNumberedFrom};

use crate::numbering::heights_of;
use crate::ordering::{in_order, order_from};
use crate::{Place, Step};
use std::alloc::{AllocError, Global};

/// The steps of a plan in the order of their numbers.
#[derive(Drop)]
pub struct NumberedSteps {
    pub steps: Vec<Step>,
    /// The number of steps on the longest path.
    pub longest: u32,
}

/// The steps of the plan that begins at a place of a draft. Those that it doesn't lead to are not among them; the
/// others are numbered from 1 by the greatest number of steps on a path to them, equal ones in the order in which a
/// walk, first edge first, first meets them. Refused only where memory is.
pub fn number_steps(
    alloc: Global,
    steps: Vec<Step>,
    first: Place,
) -> Result<NumberedSteps, AllocError>
    requires few { length steps.items ≤ 65536 }
    requires back { IsTrue (all_lead_back 0 steps.items) }
    requires first { first.0 < length steps.items }
    ensures numbered { IfOk result (λ plan. IsNumberedFrom steps.items first.0 plan.steps.items) }
    ensures longest { IfOk result (λ plan. plan.longest ≡ height (at_place steps.items first.0)) }
{
    let heights = heights_of(alloc, &steps)?;
    let order = order_from(alloc, &steps, &[first.0])?;
    let plan = in_order(alloc, steps, &order)?;
    Ok(NumberedSteps {
        steps: plan,
        longest: heights[first.0 as usize],
    })
}
