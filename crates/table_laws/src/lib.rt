//! What is known of a table, and what calls and exits make of it: lemmas over the definitions alone. No function: `proofs/` is all.
#![tactic(auto)]
