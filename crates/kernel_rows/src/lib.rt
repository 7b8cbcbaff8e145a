//! The rows of the process table: what each process is and holds, what exits and calls do to it, and the list of all.
#![tactic(auto)]

mod edits;
mod holders;
pub mod holds;
mod process;

pub use edits::Edit;
pub use holders::{HolderIter, Holders};
pub use process::{Caller, Holder, Row, Stances, WorkerName};
