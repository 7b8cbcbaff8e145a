//! Counts of runs, as `explore` answers.
use crate::values::{line_of, number_in, parted, some_text, text_of};
use serde::Serialize;
use std::alloc::{AllocError, Global};

#[derive(Drop, Serialize)]
struct ExplorationValue<'a> {
    outcome: &'a str,
    code: Option<&'a str>,
    done: EndValue<'a>,
    rolled_back: EndValue<'a>,
    degraded_old: EndValue<'a>,
    degraded_target: EndValue<'a>,
    largest_shortfall: u64,
    least_ready: Option<LeastValue<'a>>,
    most_workers: Option<MostValue<'a>>,
    tables: u64,
    cut: bool,
}

/// How many runs ended so, and the lines of the pattern that is named.
#[derive(Drop, Serialize)]
pub(crate) struct EndValue<'a> {
    pub(crate) count: u64,
    pub(crate) under: Option<Vec<&'a str>>,
}

#[derive(Drop, Serialize)]
pub(crate) struct LeastValue<'a> {
    workers: u64,
    address: &'a str,
    after_call: u64,
    under: Vec<&'a str>,
}

#[derive(Drop, Serialize)]
struct MostValue<'a> {
    workers: u64,
    after_call: u64,
    under: Vec<&'a str>,
}

/// Counts of runs as JSON, or what there is in their place.
pub fn exploration_json(alloc: Global, answer: &[u8]) -> Result<Vec<u8>, AllocError> {
    let mut value = ExplorationValue {
        outcome: "counted",
        code: None,
        done: EndValue {
            count: 0,
            under: None,
        },
        rolled_back: EndValue {
            count: 0,
            under: None,
        },
        degraded_old: EndValue {
            count: 0,
            under: None,
        },
        degraded_target: EndValue {
            count: 0,
            under: None,
        },
        largest_shortfall: 0,
        least_ready: None,
        most_workers: None,
        tables: 0,
        cut: false,
    };
    for line in text_of(answer).lines() {
        add_line(alloc, &mut value, line)?;
    }
    line_of(alloc, &value)
}

/// Takes the next line: an end, or else a number.
fn add_line<'a>(
    alloc: Global,
    value: &mut ExplorationValue<'a>,
    line: &'a str,
) -> Result<(), AllocError> {
    if let Some(rest) = line.strip_prefix("done ") {
        value.done = end_of(alloc, rest)?;
    } else if let Some(rest) = line.strip_prefix("rolled-back ") {
        value.rolled_back = end_of(alloc, rest)?;
    } else if let Some(rest) = line.strip_prefix("degraded old ") {
        value.degraded_old = end_of(alloc, rest)?;
    } else if let Some(rest) = line.strip_prefix("degraded target ") {
        value.degraded_target = end_of(alloc, rest)?;
    } else {
        return add_number(alloc, value, line);
    }
    Ok(())
}

fn add_number<'a>(
    alloc: Global,
    value: &mut ExplorationValue<'a>,
    line: &'a str,
) -> Result<(), AllocError> {
    if let Some(rest) = line.strip_prefix("largest shortfall ") {
        value.largest_shortfall = number_in(rest);
    } else if let Some(rest) = line.strip_prefix("least ready ") {
        value.least_ready = least_of(alloc, rest)?;
    } else if let Some(rest) = line.strip_prefix("most workers ") {
        value.most_workers = most_of(alloc, rest)?;
    } else if let Some(rest) = line.strip_prefix("tables ") {
        value.tables = number_in(rest);
    } else if line.starts_with("cut:") {
        value.cut = true;
    } else {
        let (outcome, code) = parted(line, " ");
        value.outcome = outcome;
        value.code = some_text(code);
    }
    Ok(())
}

/// `COUNT under EVENTS`
pub(crate) fn end_of<'a>(alloc: Global, rest: &'a str) -> Result<EndValue<'a>, AllocError> {
    let (count, events) = parted(rest, " under ");
    let under = match some_text(events) {
        Some(events) => Some(events_of(alloc, events)?),
        None => None,
    };
    Ok(EndValue {
        count: number_in(count),
        under,
    })
}

/// `WORKERS at ADDRESS after call N under EVENTS`, or `none`
pub(crate) fn least_of<'a>(
    alloc: Global,
    rest: &'a str,
) -> Result<Option<LeastValue<'a>>, AllocError> {
    if rest == "none" {
        return Ok(None);
    }
    let (workers, rest) = parted(rest, " at ");
    let (address, rest) = parted(rest, " after call ");
    let (made, events) = parted(rest, " under ");
    Ok(Some(LeastValue {
        workers: number_in(workers),
        address,
        after_call: number_in(made),
        under: events_of(alloc, events)?,
    }))
}

/// `WORKERS after call N under EVENTS`, or `none`
fn most_of<'a>(alloc: Global, rest: &'a str) -> Result<Option<MostValue<'a>>, AllocError> {
    if rest == "none" {
        return Ok(None);
    }
    let (workers, rest) = parted(rest, " after call ");
    let (made, events) = parted(rest, " under ");
    Ok(Some(MostValue {
        workers: number_in(workers),
        after_call: number_in(made),
        under: events_of(alloc, events)?,
    }))
}

/// The lines of a pattern that are on one line.
fn events_of<'a>(alloc: Global, events: &'a str) -> Result<Vec<&'a str>, AllocError> {
    if events == "no event" {
        return Ok(Vec::new(alloc));
    }
    events.split(", ").collect(alloc)
}
