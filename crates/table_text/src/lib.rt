//! The text of a process table.
#![tactic(auto)]

mod text;

pub use text::table_text;
