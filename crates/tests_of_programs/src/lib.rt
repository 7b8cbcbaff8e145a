//! Tests of what children do from their first line to their last: workers and new masters over bytes.
#![tactic(auto)]

#[cfg(test)]
mod new_masters;
#[cfg(test)]
mod piped;
#[cfg(test)]
mod workers_on_pipes;
