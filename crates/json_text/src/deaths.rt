//! Counts of deaths, as `explore --deaths` answers.
use crate::explorations::{EndValue, LeastValue, end_of, least_of};
use crate::values::{line_of, parted, some_text, text_of};
use serde::Serialize;
use std::alloc::{AllocError, Global};

#[derive(Drop, Serialize)]
struct DeathsValue<'a> {
    outcome: &'a str,
    code: Option<&'a str>,
    healed: EndValue<'a>,
    short: EndValue<'a>,
    closed: EndValue<'a>,
    least_ready: Option<LeastValue<'a>>,
}

/// Counts of deaths as JSON, or what there is in their place.
pub fn deaths_json(alloc: Global, answer: &[u8]) -> Result<Vec<u8>, AllocError> {
    let mut value = DeathsValue {
        outcome: "counted",
        code: None,
        healed: EndValue {
            count: 0,
            under: None,
        },
        short: EndValue {
            count: 0,
            under: None,
        },
        closed: EndValue {
            count: 0,
            under: None,
        },
        least_ready: None,
    };
    for line in text_of(answer).lines() {
        add_line(alloc, &mut value, line)?;
    }
    line_of(alloc, &value)
}

/// Takes the next line: an end, the fewest workers, or what there is in their place.
fn add_line<'a>(
    alloc: Global,
    value: &mut DeathsValue<'a>,
    line: &'a str,
) -> Result<(), AllocError> {
    if let Some(rest) = line.strip_prefix("healed ") {
        value.healed = end_of(alloc, rest)?;
    } else if let Some(rest) = line.strip_prefix("short ") {
        value.short = end_of(alloc, rest)?;
    } else if let Some(rest) = line.strip_prefix("closed ") {
        value.closed = end_of(alloc, rest)?;
    } else if let Some(rest) = line.strip_prefix("least ready ") {
        value.least_ready = least_of(alloc, rest)?;
    } else {
        let (outcome, code) = parted(line, " ");
        value.outcome = outcome;
        value.code = some_text(code);
    }
    Ok(())
}
