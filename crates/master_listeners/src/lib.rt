//! The listeners of a running master, in the order of their descriptors.
#![tactic(auto)]

mod listeners;

pub use listeners::Listeners;
