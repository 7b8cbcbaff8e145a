//! Targets and control words, carried out on the modelled kernel.
#![tactic(auto)]

mod agreement;
mod carrying;
mod codes;
mod enactment;
mod keeping;
mod naming;
mod patterned;
mod succession;
mod trial;
mod words;

pub use agreement::agrees;
pub use enactment::{EnactRefusal, enact, plan_of, reserved_copy};
pub use keeping::ends_as_reported;
pub use naming::{executing_after, names_executing};
pub use succession::{heir_of, record_left};
pub use words::run_words;
