//! Control words carried out on real children, line by line.
#![tactic(auto)]

mod attended;
mod carrying;
mod fault;
mod inbox;
mod master;
mod next;
mod said;
mod summary;
mod supervising;
mod taking_turns;
mod waiting;

pub use attended::Attended;
pub use carrying::OnChildren;
pub use fault::SupervisorFault;
pub use next::{NextRefusal, NextSettings};
pub use summary::Summary;
pub use supervising::{Operator, Supervised, SupervisorStart, supervise_on};
