//! Texts of a step's edges.
ghost use Rattle.std.specs.Prelude.{◌≡◌, ◌++◌, [], IfOk, codes};
ghost use Rattle.std.specs.List.{list_any};
ghost use Rattle.plan_text.specs.PlanText.{same_next, same_note, same_way, goes, new_edge, reply_words, place_text, note_part, edge_text, texts_of};
ghost use Rattle.plan_text.specs.Graph.{written};

use crate::graph::write_arrow;
use call_text::{end_text, note_text, reply_text};
use plain_text::write_number;
use rollback_plan::{Next, PlanEdge, Step};
use std::alloc::AllocError;
use vocabulary::{PidNote, Reply};

fn same_next(one: Next, other: Next) -> bool
    ensures { result ≡ same_next one other }
{
    match (one, other) {
        (Next::To(one), Next::To(other)) => one.0 == other.0,
        (Next::Over(one), Next::Over(other)) => one == other,
        (Next::Both(one, two), Next::Both(other, another)) => one.0 == other.0
            && two.0 == another.0,
        _ => false,
    }
}

fn same_note(one: Option<PidNote>, other: Option<PidNote>) -> bool
    ensures { result ≡ same_note one other }
{
    match (one, other) {
        (Some(one), Some(other)) => one == other,
        (None, None) => true,
        (Some(_), None) | (None, Some(_)) => false,
    }
}

/// Whether two edges set the same note and lead to the same place.
fn same_way(one: &PlanEdge, other: &PlanEdge) -> bool
    ensures { result ≡ same_way one.now other.now }
{
    same_next(one.next, other.next) && same_note(one.note, other.note)
}

/// Whether a reply to a step has the same note and the same rest as an edge.
pub(crate) fn goes(step: &Step, edge: &PlanEdge, reply: Reply) -> bool
    ensures { result ≡ goes step.now edge.now reply }
{
    match step.edge(reply) {
        Some(other) => same_way(edge, &other),
        None => false,
    }
}

fn any_goes(step: &Step, edge: &PlanEdge, replies: &[Reply]) -> bool
    ensures { result ≡ list_any (goes step.now edge.now) replies.now }
{
    replies.iter().any(|reply| goes(step, edge, *reply))
}

/// The edge of a reply, unless an earlier reply goes the same way.
fn new_edge(step: &Step, earlier: &[Reply], reply: Reply) -> Option<PlanEdge>
    ensures { result ≡ new_edge step.now earlier.now reply }
{
    let edge = step.edge(reply)?;
    if any_goes(step, &edge, earlier) {
        return None;
    }
    Some(edge)
}

/// The replies that go the way of an edge, with the same bytes behind each.
pub(crate) fn write_replies(
    out: &mut Vec<u8>,
    step: &Step,
    edge: &PlanEdge,
    replies: &[Reply],
    behind: &[u8],
) -> Result<(), AllocError>
    ensures { IfOk result (λ _. out.new.items ≡ out.old.items ++ reply_words step.now edge.now behind.now replies.now) }
{
    for reply in replies {
        if goes(step, edge, *reply) {
            out.extend_from_slice(reply_text(*reply).as_bytes())?;
            out.extend_from_slice(behind)?;
        }
    }
    Ok(())
}

pub(crate) fn write_place(out: &mut Vec<u8>, next: Next) -> Result<(), AllocError>
    ensures { IfOk result (λ _. out.new.items ≡ out.old.items ++ place_text next) }
{
    match next {
        Next::To(place) => write_number(out, u64::from(place.0)),
        Next::Over(end) => out.extend_from_slice(end_text(end).as_bytes()),
        Next::Both(new, old) => {
            write_number(out, u64::from(new.0))?;
            out.extend_from_slice(b"+")?;
            write_number(out, u64::from(old.0))
        }
    }
}

fn write_note(out: &mut Vec<u8>, note: Option<PidNote>) -> Result<(), AllocError>
    ensures { IfOk result (λ _. out.new.items ≡ out.old.items ++ note_part note) }
{
    let Some(note) = note else {
        return Ok(());
    };
    out.extend_from_slice(b" pid ")?;
    out.extend_from_slice(note_text(note).as_bytes())
}

/// The replies that go the way of an edge, and where they lead.
fn write_edge(
    out: &mut Vec<u8>,
    step: &Step,
    edge: &PlanEdge,
    replies: &[Reply],
) -> Result<(), AllocError>
    ensures { IfOk result (λ _. out.new.items ≡ out.old.items ++ edge_text step.now edge.now replies.now) }
{
    out.extend_from_slice(b" | ")?;
    write_replies(out, step, edge, replies, b" ")?;
    write_place(out, edge.next)?;
    write_note(out, edge.note)
}

/// How an edge is written.
#[derive(Clone, Copy)]
pub(crate) enum EdgeForm {
    /// In its step's line.
    Line,
    /// As an arrow from the step with this number.
    Arrow(u64),
}

fn write_as(
    out: &mut Vec<u8>,
    form: EdgeForm,
    step: &Step,
    replies: &[Reply],
    edge: &PlanEdge,
) -> Result<(), AllocError>
    ensures { IfOk result (λ _. out.new.items ≡ out.old.items ++ written form step.now replies.now edge.now) }
{
    match form {
        EdgeForm::Line => write_edge(out, step, edge, replies),
        EdgeForm::Arrow(number) => write_arrow(out, number, step, replies, edge),
    }
}

/// The edges of a step, ordered by the first reply of each.
pub(crate) fn write_edges(
    out: &mut Vec<u8>,
    form: EdgeForm,
    step: &Step,
    replies: &[Reply],
) -> Result<(), AllocError>
    ensures { IfOk result (λ _. out.new.items ≡ out.old.items ++ texts_of (written form step.now replies.now) step.now [] replies.now) }
{
    for (place, reply) in replies.iter().enumerate() {
        if let Some(edge) = new_edge(step, &replies[..place], *reply) {
            write_as(out, form, step, replies, &edge)?;
        }
    }
    Ok(())
}
