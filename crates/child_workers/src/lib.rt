//! The workers of an edge: how far each has come, which of them are meant, and the list of them.
#![tactic(auto)]

mod list;
mod who;
mod worker;

pub use list::{drop_first, drop_id, first, is_any, move_first, put_in_place};
pub use who::Who;
pub use worker::{Stage, Worker};
