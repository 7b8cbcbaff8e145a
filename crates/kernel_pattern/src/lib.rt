//! Patterns: who exits and which calls fail in a run.
//!
//! A pattern is seen as the moments that are not quiet, in ascending numbers.
#![tactic(auto)]

mod moments;
mod pattern;
mod section;

pub use moments::Moment;
pub use pattern::Pattern;
pub use plan_turns::Turns;
pub use section::Section;
