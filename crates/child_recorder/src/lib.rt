//! A family in memory, whose children obey, and which tells the calls that were made on it.
#![tactic(auto)]

mod obeying;
mod recorded;

pub use recorded::{FamilyCall, Recorded};
