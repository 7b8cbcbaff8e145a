//! Execution of plans by calls that a caller supplies, whoever it is that makes them.
#![tactic(auto)]

mod call_log;
mod calls;
mod course;
mod execution;
mod slot;
mod walk;

pub use call_log::Transcript;
pub use calls::Calls;
pub use course::Course;
pub use execution::execute;
pub use plan_turns::Turns;
pub use walk::{Due, Walk};
