//! The logic of runs: how facts on tables and calls are carried along the run of a plan. No function: `proofs/` is all.
#![tactic(auto)]
