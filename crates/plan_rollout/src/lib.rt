//! The steps of a reload in numbers: which new workers each step starts, and which old ones quit then.
#![tactic(auto)]

mod crowd;
mod rolling;
mod spots;
mod tally;

pub use rolling::{Rollout, RolloutStep, roll_out};
