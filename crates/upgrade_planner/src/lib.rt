//! The plan of an upgrade: a new master takes over the sockets of the old one and starts workers of its own, while the
//! old one waits and can still go back. And the plan of any target, by the planner that plans such a target.
#![tactic(auto)]

mod backing;
mod drawing;
mod pid_file;
mod planning;
mod relieving;
mod taking_over;
mod targets;
mod upgrade;

pub use planning::{plan, plan_attended};
pub use targets::plan_target;
