//! Pictures of plans.
ghost use Rattle.std.specs.Prelude.{◌≡◌, ◌++◌, IfOk};
ghost use Rattle.std.specs.Fmt.{decimal};
ghost use Rattle.rollback_plan.specs.Plans.{parts_of, steps_of};
ghost use Rattle.plan_steps.specs.Woven.{IsNumberedWith};
ghost use Rattle.plan_text.specs.PlanText.{place_text};
ghost use Rattle.plan_text.specs.Graph.{quoted, is_plain, note_line, style_part, way_text, arrow_text, opening, box_text, step_line, drawn_step, drawn_steps, mark_text, ways_in, ways_on, drawn_parts, graph_text};

use crate::edges::{EdgeForm, goes, write_edges, write_place, write_replies};
use crate::plans::write_wanted;
use call_replies::replies_of;
use call_text::{note_text, write_order};
use plain_text::write_number;
use plan_steps::Parts;
use rollback_plan::{Next, Place, Plan, PlanEdge, Step};
use std::alloc::{AllocError, Global};
use vocabulary::{End, PidNote, Reply};

/// A text within quotes.
fn write_quoted(out: &mut Vec<u8>, text: &[u8]) -> Result<(), AllocError>
    ensures { IfOk result (λ _. out.new.items ≡ out.old.items ++ quoted text.now) }
{
    for byte in text {
        if *byte == b'"' || *byte == b'\\' {
            out.extend_from_slice(b"\\")?;
        }
        out.extend_from_slice(&[*byte])?;
    }
    Ok(())
}

/// Whether an edge is the way of the plain reply.
fn is_plain(step: &Step, edge: &PlanEdge, replies: &[Reply]) -> bool
    ensures { result ≡ is_plain step.now edge.now replies.now }
{
    match replies.first() {
        Some(reply) => goes(step, edge, *reply),
        None => false,
    }
}

fn write_note(out: &mut Vec<u8>, note: Option<PidNote>) -> Result<(), AllocError>
    ensures { IfOk result (λ _. out.new.items ≡ out.old.items ++ note_line note) }
{
    let Some(note) = note else {
        return Ok(());
    };
    out.extend_from_slice(b"pid ")?;
    out.extend_from_slice(note_text(note).as_bytes())?;
    out.extend_from_slice(b"\\l")
}

fn write_style(out: &mut Vec<u8>, is_plain: bool) -> Result<(), AllocError>
    ensures { IfOk result (λ _. out.new.items ≡ out.old.items ++ style_part is_plain) }
{
    if is_plain {
        out.extend_from_slice(b", weight=9, style=bold")?;
    }
    Ok(())
}

/// From the n-th step to the place that an edge leads to.
fn write_way(out: &mut Vec<u8>, number: u64, edge: &PlanEdge) -> Result<(), AllocError>
    ensures { IfOk result (λ _. out.new.items ≡ out.old.items ++ way_text number edge.now) }
{
    out.extend_from_slice(b"  ")?;
    write_number(out, number)?;
    out.extend_from_slice(b" -> \"")?;
    write_place(out, edge.next)?;
    out.extend_from_slice(b"\"")
}

/// The arrow of an edge, with a line for each reply that goes its way, and one for its note.
pub(crate) fn write_arrow(
    out: &mut Vec<u8>,
    number: u64,
    step: &Step,
    replies: &[Reply],
    edge: &PlanEdge,
) -> Result<(), AllocError>
    ensures { IfOk result (λ _. out.new.items ≡ out.old.items ++ arrow_text number step.now replies.now edge.now) }
{
    write_way(out, number, edge)?;
    out.extend_from_slice(b" [label=\"")?;
    write_replies(out, step, edge, replies, b"\\l")?;
    write_note(out, edge.note)?;
    out.extend_from_slice(b"\"")?;
    write_style(out, is_plain(step, edge, replies))?;
    out.extend_from_slice(b"];\n")
}

/// A number between two texts.
pub(crate) fn write_between(
    out: &mut Vec<u8>,
    before: &[u8],
    number: u64,
    behind: &[u8],
) -> Result<(), AllocError>
    ensures { IfOk result (λ _. out.new.items ≡ out.old.items ++ before.now ++ decimal number ++ behind.now) }
{
    out.extend_from_slice(before)?;
    write_number(out, number)?;
    out.extend_from_slice(behind)
}

fn open_box(out: &mut Vec<u8>, number: u64) -> Result<(), AllocError>
    ensures { IfOk result (λ _. out.new.items ≡ out.old.items ++ opening number) }
{
    write_between(out, b"  ", number, b" [shape=box, label=\"")
}

/// A box with a number and a line behind it.
fn write_box(out: &mut Vec<u8>, number: u64, line: &[u8]) -> Result<(), AllocError>
    ensures { IfOk result (λ _. out.new.items ≡ out.old.items ++ box_text number line.now) }
{
    open_box(out, number)?;
    write_number(out, number)?;
    out.extend_from_slice(b" ")?;
    write_quoted(out, line)?;
    out.extend_from_slice(b"\"];\n")
}

/// The call of a step, and the set of a census.
fn step_line(alloc: Global, step: &Step) -> Result<Vec<u8>, AllocError>
    ensures { IfOk result (λ line. line.items ≡ step_line step.now) }
{
    let mut line = Vec::new(alloc);
    let order = step.order();
    write_order(&mut line, step.by, &order)?;
    write_wanted(&mut line, &order, &step.set())?;
    Ok(line)
}

fn draw_step(alloc: Global, out: &mut Vec<u8>, number: u64, step: &Step) -> Result<(), AllocError>
    ensures { IfOk result (λ _. out.new.items ≡ out.old.items ++ drawn_step number step.now) }
{
    let line = step_line(alloc, step)?;
    write_box(out, number, &line)?;
    write_edges(
        out,
        EdgeForm::Arrow(number),
        step,
        replies_of(&step.order()),
    )
}

/// The steps, numbered from 1.
fn draw_steps(alloc: Global, out: &mut Vec<u8>, steps: &[Step]) -> Result<(), AllocError>
    ensures { IfOk result (λ _. out.new.items ≡ out.old.items ++ drawn_steps 1 steps.now) }
{
    for (place, step) in steps.iter().enumerate() {
        draw_step(alloc, out, place as u64 + 1, step)?;
    }
    Ok(())
}

/// An arrow from a mark to a step.
fn write_mark(out: &mut Vec<u8>, mark: Next, place: Place) -> Result<(), AllocError>
    ensures { IfOk result (λ _. out.new.items ≡ out.old.items ++ mark_text (place_text mark) place.0) }
{
    out.extend_from_slice(b"  \"")?;
    write_place(out, mark)?;
    write_between(out, b"\" -> \"", u64::from(place.0), b"\";\n")
}

/// The arrows into both parts, and from the end of the new master's to where the plan goes on.
fn draw_parts(out: &mut Vec<u8>, parts: Option<Parts>) -> Result<(), AllocError>
    ensures { IfOk result (λ _. out.new.items ≡ out.old.items ++ drawn_parts parts) }
{
    match parts {
        Some(parts) => {
            draw_ways_in(out, &parts)?;
            draw_ways_on(out, &parts)
        }
        None => Ok(()),
    }
}

fn draw_ways_in(out: &mut Vec<u8>, parts: &Parts) -> Result<(), AllocError>
    ensures { IfOk result (λ _. out.new.items ≡ out.old.items ++ ways_in parts.now) }
{
    let both = Next::Both(parts.new, parts.old);
    write_mark(out, both, parts.new)?;
    write_mark(out, both, parts.old)
}

fn draw_ways_on(out: &mut Vec<u8>, parts: &Parts) -> Result<(), AllocError>
    ensures { IfOk result (λ _. out.new.items ≡ out.old.items ++ ways_on parts.now) }
{
    write_mark(out, Next::Over(End::JoinReady), parts.ready)?;
    write_mark(out, Next::Over(End::JoinBack), parts.back)
}

/// The picture of a plan in the language of Graphviz (`dot`): a box for each step with its number
/// and its call, and an arrow for each of its edges, with the answers that go its way, and
/// `pid NOTE` where it sets the pid note. An arrow leads to a step, to the first steps of both
/// parts, or to an end. The end of the new master's part has an arrow to where the plan goes on.
/// The plain answers' arrows are bold, and are drawn straight. The only refusal is out of memory.
pub fn write_graph(alloc: Global, plan: &Plan) -> Result<Vec<u8>, AllocError>
    ensures numbered { ∥ IsNumberedWith (steps_of plan.now) (parts_of plan.now) ∥₁ }
    ensures text { IfOk result (λ out. out.items ≡ graph_text (steps_of plan.now) (parts_of plan.now)) }
{
    let mut out = Vec::new(alloc);
    out.extend_from_slice(
        b"digraph plan {\n  node [fontname=monospace];\n  edge [fontname=monospace];\n",
    )?;
    draw_steps(alloc, &mut out, plan.steps())?;
    draw_parts(&mut out, plan.parts())?;
    out.extend_from_slice(b"}\n")?;
    Ok(out)
}
