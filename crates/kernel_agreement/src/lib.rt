//! Whether the modelled kernel is as a master's record says.
#![tactic(auto)]

mod agreement;

pub use agreement::{Running, agrees_with};
