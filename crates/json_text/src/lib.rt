//! The answers of the program as JSON, by `serde_json`: each is read from the text that is printed without it, so that both
//! say the same.
#![tactic(auto)]

mod blocks;
mod checks;
mod deaths;
mod explorations;
mod faults;
mod lives;
mod patterns;
mod plans;
mod values;

pub use blocks::blocks_json;
pub use checks::checks_json;
pub use deaths::deaths_json;
pub use explorations::exploration_json;
pub use faults::fault_json;
pub use patterns::patterns_json;
pub use plans::plan_json;
