//! Tests of children that are processes of the system, with no edge over them, and of the lines of their readers.
#![tactic(auto)]

#[cfg(test)]
mod endings;
#[cfg(test)]
mod readers;
#[cfg(test)]
mod setup;
mod shells;
#[cfg(test)]
mod silent;

pub use shells::{shell, worker};
