//! The words that plans, kernel and reports speak: plain types, and no rule of a master. What they
//! mean stands in the crate `definitions`.
#![tactic(auto)]

mod calls;
mod handover;
mod names;
mod plans;
mod reports;
mod settings;
mod table;
mod targets;

pub use calls::{Answer, Call, Fate, Reply};
pub use handover::{HandoverRefusal, HandoverVersion};
pub use names::{Actor, Name};
pub use plans::{End, Lack, Order, PidNote, Side, Sides, Turn};
pub use reports::{Entry, Outcome, Report};
pub use settings::Settings;
pub use table::{Limits, Listener, Stance};
pub use targets::Target;
