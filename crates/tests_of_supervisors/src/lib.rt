//! Tests of what a supervisor does from its first line to its last, over a family in memory.
#![tactic(auto)]

#[cfg(test)]
mod attended;
#[cfg(test)]
mod generations;
#[cfg(test)]
mod grouped;
#[cfg(test)]
mod replacing;
#[cfg(test)]
mod setup;
#[cfg(test)]
mod supervising;
