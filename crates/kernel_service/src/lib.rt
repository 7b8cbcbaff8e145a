//! Services: which addresses are served, and by how many workers of each generation.
//!
//! A service is seen as a list of addresses in ascending bytes, each with its counts in ascending generations.
#![tactic(auto)]

mod counts;
mod service;

pub use counts::{Count, count_of, set_count};
pub use service::{Served, Service};
