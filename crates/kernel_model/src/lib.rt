//! The modelled kernel: the table of processes, sockets and files, and what exits and calls do to it.
//!
//! A kernel is seen as the table of `definitions` and its room, the number of calls that it has memory and numbers
//! for. Each call is the definitions' step.
#![tactic(auto)]

mod boot;
mod calls;
mod exits;
mod kernel;
mod listening;
mod master_calls;
mod readers;
mod refusal;
mod replies;
mod service;

pub use boot::{BootRefusal, WIDEST_LIMITS};
pub use kernel::Kernel;
pub use kernel_pattern::{Moment, Pattern, Section, Turns};
pub use kernel_rows::Row;
pub use kernel_service::Service;
pub use kernel_table::FileRow;
pub use listening::are_listeners;
pub use readers::HoldRow;
pub use refusal::{ForeignRefusal, ReserveRefusal};
