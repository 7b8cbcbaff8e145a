//! Tests of the modelled kernel, and of masters on it: records, upgrades, words and certificates.
#![tactic(auto)]

#[cfg(test)]
mod agreement;
#[cfg(test)]
mod certificates;
#[cfg(test)]
mod kernels;
#[cfg(test)]
mod setup;
#[cfg(test)]
mod upgrades;
#[cfg(test)]
mod words;
