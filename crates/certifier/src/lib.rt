//! Certificates: a transcript of a target, held against the modelled kernel.
#![tactic(auto)]

mod beginning;
mod blocks;
mod certification;
mod replay;
mod sameness;
mod showing;
mod turns_used;

pub use beginning::certify_beginning;
pub use blocks::{BlockMismatch, certify_block, certify_blocks, goals_after};
pub use certification::certify;
pub use mismatches::Mismatch;
