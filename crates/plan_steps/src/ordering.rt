//! The order of a plan's steps, and their numbers in it.
ghost use Rattle.std.specs.Prelude.{◌≡◌, ◌≤◌, ◌<◌, ◌^◌, IfOk, IsTrue, length, map, nat_eq};
ghost use Rattle.std.specs.List.{list_all, IsDistinct};
ghost use Rattle.plan_steps.specs.Steps.{all_below, all_lead_back};
ghost use Rattle.plan_steps.specs.Numbering.{edge_numbered, all_within};
ghost use Rattle.plan_steps.specs.Numbering.{IsOrder, CanBeOrder, IsInOrder, AreNumbers, IsNumbered, AllNumbered};

use crate::layers::by_depth;
use crate::numbering::depths_from;
use crate::walking::walk;
use crate::{Next, Place, PlanEdge, Step};
use std::alloc::{AllocError, Global};
use std::mem;

/// The places that a walk to some places meets, by their depth.
pub(crate) fn order_from(
    alloc: Global,
    steps: &[Step],
    roots: &[u32],
) -> Result<Vec<u32>, AllocError>
    requires few { length steps.now ≤ 65536 }
    requires back { IsTrue (all_lead_back 0 steps.now) }
    requires roots { IsTrue (all_within (length steps.now) roots.now) }
    ensures { IfOk result (λ order. IsOrder steps.now roots.now order.items) }
{
    let depths = depths_from(alloc, steps, roots)?;
    let met = walk(alloc, steps, roots)?;
    by_depth(alloc, &met, &depths)
}

/// The steps of a draft in this order, with their places numbered.
pub(crate) fn in_order(
    alloc: Global,
    steps: Vec<Step>,
    order: &[u32],
) -> Result<Vec<Step>, AllocError>
    requires order { CanBeOrder (length steps.items) order.now }
    requires back { IsTrue (list_all (λ s. all_below (length steps.items) s.edges.items) steps.items) }
    ensures { IfOk result (λ plan. IsInOrder steps.items order.now plan.items) }
{
    let numbers = numbers_of(alloc, order, steps.len())?;
    numbered(alloc, steps, order, &numbers)
}

/// The number, from 1, that each place in the order gets.
pub(crate) fn numbers_of(
    alloc: Global,
    order: &[u32],
    places: usize,
) -> Result<Vec<u32>, AllocError>
    requires few { length order.now < 2 ^ 32 }
    requires within { IsTrue (all_within places order.now) }
    ensures { IfOk result (λ numbers. AreNumbers order.now places numbers.items) }
{
    let mut numbers = vec![in alloc; 0; places]?;
    for (i, place) in order.iter().enumerate() {
        numbers[*place as usize] = i as u32 + 1;
    }
    Ok(numbers)
}

/// The steps in this order, taken out of a draft, with these numbers for their places.
pub(crate) fn numbered(
    alloc: Global,
    mut steps: Vec<Step>,
    order: &[u32],
    numbers: &[u32],
) -> Result<Vec<Step>, AllocError>
    requires within { IsTrue (all_within (length steps.items) order.now) }
    requires distinct { IsDistinct nat_eq order.now }
    requires numbers { length numbers.now ≡ length steps.items }
    requires back { IsTrue (list_all (λ s. all_below (length steps.items) s.edges.items) steps.items) }
    ensures { IfOk result (λ plan. AllNumbered numbers.now steps.items order.now plan.items) }
{
    let mut plan = Vec::with_capacity(alloc, order.len())?;
    for place in order {
        let step = &mut steps[*place as usize];
        plan.push(take_numbered(alloc, step, numbers)?)?;
    }
    Ok(plan)
}

/// This step, with these numbers for its places. Its edges are taken out of it: they are gone before those of the
/// next one are numbered, so that no more than one step's stand in memory twice.
fn take_numbered(alloc: Global, step: &mut Step, numbers: &[u32]) -> Result<Step, AllocError>
    requires { IsTrue (all_below (length numbers.now) step.old.edges.items) }
    ensures { IfOk result (IsNumbered numbers.now step.old) }
{
    let edges = mem::replace(&mut step.edges, Vec::new(alloc));
    Ok(Step {
        by: step.by,
        order: step.order.copy(alloc)?,
        set: step.set.copy(alloc)?,
        edges: edges_numbered(alloc, &edges, numbers)?,
    })
}

/// These edges, with these numbers for their places.
fn edges_numbered(
    alloc: Global,
    edges: &[PlanEdge],
    numbers: &[u32],
) -> Result<Vec<PlanEdge>, AllocError>
    requires { IsTrue (all_below (length numbers.now) edges.now) }
    ensures { IfOk result (λ numbered. numbered.items ≡ map (edge_numbered numbers.now) edges.now) }
{
    let mut numbered = Vec::with_capacity(alloc, edges.len())?;
    for edge in edges {
        let next = match edge.next {
            Next::To(place) => Next::To(Place(numbers[place.0 as usize])),
            Next::Over(end) => Next::Over(end),
            Next::Both(new, old) => Next::Both(
                Place(numbers[new.0 as usize]),
                Place(numbers[old.0 as usize]),
            ),
        };
        numbered.push(PlanEdge {
            replies: edge.replies,
            note: edge.note,
            next,
        })?;
    }
    Ok(numbered)
}
