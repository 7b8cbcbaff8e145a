//! The text of a plan, and its picture.
#![tactic(auto)]

mod edges;
mod graph;
mod plans;

pub use graph::write_graph;
pub use plans::write_plan;
