//! Texts that are read line by line, and why one is refused.
#![tactic(auto)]

mod reading;
mod refusal;

pub use reading::{TakesLines, read_lines};
pub use refusal::TextRefusal;
