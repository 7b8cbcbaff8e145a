//! Control words, carried out one after another by whatever carries targets out.
#![tactic(auto)]

mod asking;
mod block;
mod enactor;
mod standing;
mod status;
mod words;

pub use asking::{Asked, HeardBeat, asked_by, note};
pub use block::{Block, Body, CodeText};
pub use enactor::{Enacted, Enactor, TargetRefusal};
pub use standing::Standing;
pub use status::{body_status, graver, gravest, status_of};
pub use words::run_words;
