//! Handovers: the text by which an old master tells a new one what it has and what is wanted.
#![tactic(auto)]

mod fields;
mod groups;
mod handover;
mod laws;
mod reader;
mod reading;
mod writing;

pub use handover::Handover;
pub use laws::handovers_have_one_text;
pub use reading::read;
pub use writing::write;
