//! Texts of what words came to, written and read.
#![tactic(auto)]

mod block;
mod block_line;
mod codes;
mod entries;
mod reading;

pub use block::{write_body, write_transcript};
pub use reading::read_transcripts;
