//! Texts of calls and their answers, of exits and fates, and of reports.
//!
//! Each text is a function to bytes in `specs/`. Writers put it behind what was written before, and
//! readers accept it and nothing else.
#![tactic(auto)]

mod answers;
mod calls;
mod ends;
mod forks;
mod names;
mod parts;
mod reports;
mod sets;
mod shortfalls;
mod verbs;
mod words;

pub use answers::{read_answer, write_answer};
pub use calls::{write_call, write_order};
pub use ends::read_report;
pub use names::{read_fate, read_name, write_name};
pub use reports::{write_entry, write_report};
pub use sets::{read_set, write_set};
pub use verbs::read_call;
pub use words::{end_text, fate_text, note_text, reply_text, side_text};
