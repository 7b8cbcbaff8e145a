//! Children that are told lines and answer by lines: what a family of them can be asked, what
//! is said to workers, and what a conversation with them is.
#![tactic(auto)]

mod family;
mod lines;
mod role;

pub use family::Family;
pub use lines::{beat_start, close_line, listener_line, pid_text, tick_line, worker_line};
pub use role::{Heard, Role, StartFault};
