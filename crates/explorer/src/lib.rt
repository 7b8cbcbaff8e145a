//! How a target ends whatever goes wrong: its run under no event, under each event that this run meets, and under each
//! pair of these.
#![tactic(auto)]

mod branching;
mod counting;
mod effects;
mod events;
mod exploring;
mod findings;
mod known;
mod position;
mod tally;

pub use counting::Audience;
pub use events::{Event, Mishap, Tried};
pub use exploring::{Search, Unexplored, explore};
pub use findings::{Findings, Least, Most};
pub use tally::{Ended, Tally};
