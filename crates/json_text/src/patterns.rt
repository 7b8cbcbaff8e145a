//! Patterns, as `certify` answers, and the account of a life.
use crate::lives::{LifeValue, life_in};
use crate::values::{line_of, parted, text_of};
use serde::Serialize;
use std::alloc::{AllocError, Global};

#[derive(Drop, Serialize)]
struct PatternsAnswer<'a> {
    accepted: usize,
    patterns: Vec<Vec<&'a str>>,
    life: Option<LifeValue<'a>>,
}

/// The patterns of so many blocks as JSON, each a list of its lines, and the account of their life if the text has it.
pub fn patterns_json(alloc: Global, accepted: usize, answer: &[u8]) -> Result<Vec<u8>, AllocError> {
    let (sections, rest) = parted(text_of(answer), "life words ");
    let mut patterns = Vec::new(alloc);
    let mut lines = Vec::new(alloc);
    for line in sections.lines() {
        if line == "next" {
            patterns.push(lines).map_err(AllocError::from)?;
            lines = Vec::new(alloc);
        } else {
            lines.push(line).map_err(AllocError::from)?;
        }
    }
    if accepted > 0 {
        patterns.push(lines).map_err(AllocError::from)?;
    }
    let life = life_in(alloc, rest)?;
    let answer = PatternsAnswer {
        accepted,
        patterns,
        life,
    };
    line_of(alloc, &answer)
}
