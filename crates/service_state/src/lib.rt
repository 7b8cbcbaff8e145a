//! What a running master knows of itself, what a target wants of it, and what it knows after a plan has ended.
#![tactic(auto)]

mod posting;
mod record;
mod setup;
mod wanting;

pub use master_listeners::Listeners;
pub use record::Record;
pub use setup::{next_config, next_image};
pub use vocabulary::{Outcome, PidNote, Report, Settings, Side, Target};
pub use wanting::want;
