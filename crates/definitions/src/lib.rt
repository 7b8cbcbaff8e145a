//! What the words of a master mean, and nothing that runs: `specs/` has it in the order of a reader.
//! The table of processes, exits, calls, services, the record of a running master, targets, plans,
//! runs, claims.
#![tactic(auto)]
