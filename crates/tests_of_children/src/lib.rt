//! Tests of edges, over children in memory and over processes of the system.
#![tactic(auto)]

#[cfg(test)]
mod closings;
#[cfg(test)]
mod edges;
#[cfg(test)]
mod lives;
#[cfg(test)]
mod plans;
#[cfg(test)]
mod processes;
#[cfg(test)]
mod setup;
