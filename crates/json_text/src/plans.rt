//! Plans, as `plan` answers.
use crate::values::{line_of, number_in, parted, some_text, text_of};
use serde::Serialize;
use std::alloc::{AllocError, Global};

#[derive(Drop, Serialize)]
struct PlanValue<'a> {
    outcome: &'a str,
    code: Option<&'a str>,
    longest: u64,
    steps: Vec<StepValue<'a>>,
    join: Option<JoinValue>,
}

/// Where a plan of two parts goes on.
#[derive(Clone, Copy, Serialize)]
struct JoinValue {
    ready: u64,
    back: u64,
}

#[derive(Drop, Serialize)]
struct StepValue<'a> {
    number: u64,
    master: u64,
    call: &'a str,
    set: Option<&'a str>,
    edges: Vec<EdgeValue<'a>>,
}

#[derive(Drop, Serialize)]
struct EdgeValue<'a> {
    answers: Vec<&'a str>,
    to: &'a str,
    pid: Option<&'a str>,
}

/// A plan as JSON, or what there is in its place.
pub fn plan_json(alloc: Global, answer: &[u8]) -> Result<Vec<u8>, AllocError> {
    let mut value = PlanValue {
        outcome: "",
        code: None,
        longest: 0,
        steps: Vec::new(alloc),
        join: None,
    };
    for line in text_of(answer).lines() {
        add_line(alloc, &mut value, line)?;
    }
    line_of(alloc, &value)
}

/// Takes the next line: the first one says what the answer is, and each other one is a step, or says where two parts go on.
fn add_line<'a>(alloc: Global, value: &mut PlanValue<'a>, line: &'a str) -> Result<(), AllocError> {
    if value.outcome.is_empty() {
        let (outcome, rest) = parted(line, " ");
        value.outcome = outcome;
        value.longest = number_in(parted(rest, " longest ").1);
        value.code = if outcome == "refused" {
            some_text(rest)
        } else {
            None
        };
        return Ok(());
    }
    if let Some(places) = line.strip_prefix("join ready ") {
        let (ready, back) = parted(places, " back ");
        value.join = Some(JoinValue {
            ready: number_in(ready),
            back: number_in(back),
        });
        return Ok(());
    }
    let step = step_of(alloc, line)?;
    Ok(value.steps.push(step).map_err(AllocError::from)?)
}

/// `N mI CALL set SET | EDGE ..`
fn step_of<'a>(alloc: Global, line: &'a str) -> Result<StepValue<'a>, AllocError> {
    let (made, ways) = parted(line, " | ");
    let (made, set) = parted(made, " set ");
    let (number, rest) = parted(made, " ");
    let (master, call) = parted(rest, " ");
    let mut edges = Vec::new(alloc);
    for way in ways.split(" | ") {
        edges.push(edge_of(alloc, way)?).map_err(AllocError::from)?;
    }
    Ok(StepValue {
        number: number_in(number),
        master: number_in(master.strip_prefix("m").unwrap_or("")),
        call,
        set: some_text(set),
        edges,
    })
}

/// `ANSWERS PLACE pid NOTE`
fn edge_of<'a>(alloc: Global, way: &'a str) -> Result<EdgeValue<'a>, AllocError> {
    let (way, note) = parted(way, " pid ");
    let (given, to) = way.rsplit_once(' ').unwrap_or(("", way));
    Ok(EdgeValue {
        answers: given.split(' ').collect(alloc)?,
        to,
        pid: some_text(note),
    })
}
