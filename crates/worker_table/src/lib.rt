//! The workers of a master with the moments of their last beats. All memory is taken at the start.
#![tactic(auto)]

mod refusal;
mod workers;

pub use refusal::TableRefusal;
pub use workers::WorkerTable;
