//! Children that are processes of the system, on pipes.
#![tactic(auto)]

mod buffer;
mod limits;
mod os_family;
mod patience;
mod reader;
mod watch;
mod writing;

pub use limits::ChildLimits;
pub use os_family::{ANSWER_WITHIN, OsFamily, READY_WITHIN};
pub use reader::LineReader;
