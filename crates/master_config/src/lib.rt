//! The configuration of a master, read from a TOML text.
//!
//! A text is checked in a fixed order, and the first rule that it breaks is its refusal: the text is TOML, each key is
//! known, and then the keys `command`, `groups`, `listeners`, `pid`, `retries`, `timeout` and `workers`, each first by
//! the kind of its value and then by the value itself; each group in the same way, in their order. Then
//! `service` is a table: what it says is for the service alone. Last, the options of `sockets` are checked, listener by
//! listener; they are for the service too.
#![tactic(auto)]

mod command;
mod config;
mod files;
mod group_fault;
mod groups;
mod key;
mod listening;
mod pools;
mod refusal;
mod rest;
mod socket_fault;
mod socket_key;
mod sockets;
mod values;

pub use config::{Config, read};
pub use files::{config_in, settings_in, text_in};
pub use group_fault::GroupFault;
pub use key::Key;
pub use refusal::ConfigRefusal;
pub use socket_fault::SocketFault;
pub use socket_key::{SocketKey, is_option_of_path, is_option_of_port};
