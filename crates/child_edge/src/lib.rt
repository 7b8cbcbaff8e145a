//! The calls of a plan, made on real children.
#![tactic(auto)]

mod calling;
mod each;
mod edge;
mod files;
mod listening;
mod masters;
mod passing;
mod saying;
mod starting;
mod state;
mod workers;

pub use child_workers::{Stage, Who, Worker};
pub use edge::Edge;
pub use state::{ChildMaster, EdgeState};
