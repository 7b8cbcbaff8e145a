//! Texts of plans.
ghost use Rattle.std.specs.Prelude.{◌≡◌, ◌++◌, IfOk};
ghost use Rattle.rollback_plan.specs.Plans.{length_of, parts_of, steps_of};
ghost use Rattle.plan_steps.specs.Woven.{IsNumberedWith};
ghost use Rattle.plan_text.specs.PlanText.{set_part, step_text, steps_text, joined_text, join_text, plan_text};

use crate::edges::{EdgeForm, write_edges};
use crate::graph::write_between;
use call_replies::replies_of;
use call_text::{write_order, write_set};
use listener_set::Numbers;
use plain_text::write_number;
use plan_steps::Parts;
use rollback_plan::{Plan, Step};
use std::alloc::{AllocError, Global};
use vocabulary::{Call, Order};

/// The set that a census must contain.
pub(crate) fn write_wanted(
    out: &mut Vec<u8>,
    order: &Order,
    set: &Numbers,
) -> Result<(), AllocError>
    ensures { IfOk result (λ _. out.new.items ≡ out.old.items ++ set_part order.now set.now) }
{
    match order {
        Order::Make(Call::Census(_)) => {
            out.extend_from_slice(b" set ")?;
            write_set(out, set)
        }
        _ => Ok(()),
    }
}

/// The line of the n-th step.
fn write_step(out: &mut Vec<u8>, number: u64, step: &Step) -> Result<(), AllocError>
    ensures { IfOk result (λ _. out.new.items ≡ out.old.items ++ step_text number step.now) }
{
    write_number(out, number)?;
    out.extend_from_slice(b" ")?;
    let order = step.order();
    write_order(out, step.by, &order)?;
    write_wanted(out, &order, &step.set())?;
    write_edges(out, EdgeForm::Line, step, replies_of(&order))?;
    out.extend_from_slice(b"\n")
}

/// A line for each step, numbered from 1.
fn write_steps(out: &mut Vec<u8>, steps: &[Step]) -> Result<(), AllocError>
    ensures { IfOk result (λ _. out.new.items ≡ out.old.items ++ steps_text 1 steps.now) }
{
    for (place, step) in steps.iter().enumerate() {
        write_step(out, place as u64 + 1, step)?;
    }
    Ok(())
}

/// Where the plan goes on when both of its parts have ended: where the new master is ready, and where it leads back.
fn write_join(out: &mut Vec<u8>, parts: Option<Parts>) -> Result<(), AllocError>
    ensures { IfOk result (λ _. out.new.items ≡ out.old.items ++ join_text parts) }
{
    match parts {
        Some(parts) => write_joined(out, u64::from(parts.ready.0), u64::from(parts.back.0)),
        None => Ok(()),
    }
}

fn write_joined(out: &mut Vec<u8>, ready: u64, back: u64) -> Result<(), AllocError>
    ensures { IfOk result (λ _. out.new.items ≡ out.old.items ++ joined_text ready back) }
{
    write_between(out, b"join ready ", ready, b" ")?;
    write_between(out, b"back ", back, b"\n")
}

/// The text of a plan: a line `plan steps S longest L` with the number of its steps and of those on
/// its longest path, and then a line for each step in order: `N mI CALL`, after a census ` set SET`,
/// and for each edge ` | ANSWERS PLACE`, with ` pid NOTE` after it where it sets the pid note. The
/// answers of an edge are those whose note and rest of the plan are the same. Where two masters have
/// parts of the plan, the edge that leads to both has the place `A+B`, the new master's first step
/// and the old one's; the parts end at `join-ready`, `join-back` and `join`, and a last line
/// `join ready K back L` says where the plan goes on. The only refusal is out of memory.
pub fn write_plan(alloc: Global, plan: &Plan) -> Result<Vec<u8>, AllocError>
    ensures numbered { ∥ IsNumberedWith (steps_of plan.now) (parts_of plan.now) ∥₁ }
    ensures text { IfOk result (λ out. out.items ≡ plan_text (length_of plan.now) (steps_of plan.now) (parts_of plan.now)) }
{
    let mut out = Vec::new(alloc);
    let steps = plan.steps();
    out.extend_from_slice(b"plan steps ")?;
    write_number(&mut out, steps.len() as u64)?;
    out.extend_from_slice(b" longest ")?;
    write_number(&mut out, u64::from(plan.longest()))?;
    out.extend_from_slice(b"\n")?;
    write_steps(&mut out, steps)?;
    write_join(&mut out, plan.parts())?;
    Ok(out)
}
