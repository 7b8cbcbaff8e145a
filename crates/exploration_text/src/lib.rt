//! Texts of explored runs: a run that is listed, what all of them ended in, and what starts after deaths come to.
//!
//! Each text is a function to bytes in `specs/`. Writers append it.
#![tactic(auto)]

mod deaths;
mod events;
mod runs;
mod summary;

pub use deaths::write_deaths;
pub use runs::write_run;
pub use summary::write_summary;
