//! Patterns and turns as texts: a section of lines for each run.
//!
//! Each line is a function to bytes in `specs/`. Readers accept such lines and nothing else.
#![tactic(auto)]

mod pattern_line;
mod patterns;
mod turns_line;
mod writing;

pub use pattern_line::PatternLine;
pub use patterns::read_patterns;
pub use turns_line::{turns_in, write_turns};
pub use writing::write_patterns;
