//! What a start comes to after the death of a master: at each call of a target's run its executing master exits, and a
//! master is started on what is left, on sockets that somebody else keeps.
#![tactic(auto)]

mod counts;
mod exploring;
mod leftovers;

pub use counts::{Death, DeathCounts, Deaths, LeastLeft};
pub use exploring::{DeathSearch, explore_deaths};
pub use leftovers::ready_at;
