//! Faults of the program: which one a refusal is, what it prints, and the status that it ends with.
#![tactic(auto)]

mod fault;

pub use fault::Fault;
