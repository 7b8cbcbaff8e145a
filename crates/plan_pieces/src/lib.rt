//! The pieces that plans are made of: starts and waits, calls that are made whatever is answered, sockets that open,
//! files that move and go, and what a new master tries. Each adds its steps to a draft, before a place that stands
//! there already.
#![tactic(auto)]

mod attempting;
mod files;
mod going_on;
mod listening;
mod listing;
mod starting;
mod trying;

pub use files::add_file_call;
pub use going_on::{add_each, add_starts_any};
pub use listening::add_opens;
pub use listing::listed;
pub use starting::add_starts;
pub use trying::{add_tried, add_tried_all};
