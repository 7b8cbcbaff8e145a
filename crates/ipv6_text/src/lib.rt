//! Hosts that are IPv6 addresses, in the one text that each has.
#![tactic(auto)]

mod groups;
mod host;

pub use host::is_ipv6_host;
