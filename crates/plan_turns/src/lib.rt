//! Whose turn it is, where two masters carry out a plan side by side.
#![tactic(auto)]

mod turns;

pub use turns::Turns;
