//! A fault, in the place of an answer.
use crate::values::line_of;
use serde::Serialize;
use std::alloc::{AllocError, Global};

/// It begins as the answers of `plan` and `explore` do.
#[derive(Clone, Copy, Serialize)]
struct FaultValue<'a> {
    outcome: &'a str,
    code: &'a str,
}

/// What the line of a fault says after `prefork: `, as JSON.
pub fn fault_json(alloc: Global, code: &str) -> Result<Vec<u8>, AllocError> {
    line_of(
        alloc,
        &FaultValue {
            outcome: "fault",
            code,
        },
    )
}
