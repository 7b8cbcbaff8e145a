//! The subcommands that run: `supervise`, a master; `adopt`, the new master of an upgrade; `child`, a worker.
#![tactic(auto)]

mod pid_file;
mod serving;
mod sharing;
mod surroundings;

pub use serving::{adopt, child, supervise};
pub use surroundings::Surroundings;
