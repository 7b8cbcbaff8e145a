//! The process table: its rows, the files, and the few ways to read and to change them.
//!
//! A `Store` is seen as the table of `definitions`. It keeps no invariant of its own: what its callers have to keep
//! stands in its contracts.
#![tactic(auto)]

mod file_row;
pub mod files;
mod free_names;
mod lone_names;
mod store;

pub use file_row::FileRow;
pub use free_names::FreeNames;
pub use lone_names::LoneNames;
pub use store::Store;
