//! Groups of workers, where the workers of each group listen, the workers of a generation by their groups, and how many of each group are
//! lacking: values of fixed size, whose calls take no memory.
#![tactic(auto)]

mod crew;
mod groups;
mod posts;
mod shortfalls;

pub use crew::Crew;
pub use groups::{Group, GroupRefusal, Groups, MOST_GROUPS};
pub use posts::Posts;
pub use shortfalls::Shortfalls;
