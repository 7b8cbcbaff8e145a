//! Tests of values and their texts: addresses, lines, patterns, handovers, plans, and what a master knows after them.
#![tactic(auto)]

#[cfg(test)]
mod drafts;
#[cfg(test)]
mod handovers;
#[cfg(test)]
mod lines;
#[cfg(test)]
mod listeners;
#[cfg(test)]
mod patterns;
#[cfg(test)]
mod planning;
#[cfg(test)]
mod records;
