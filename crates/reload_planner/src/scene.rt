//! What a plan needs to know of the master that it is for.
use listener_set::Numbers;
use vocabulary::{Actor, Sides};
use worker_groups::Crew;

/// What a plan needs to know of the master that it is for.
#[derive(Clone, Copy, Debug)]
pub struct Scene {
    pub by: Actor,
    /// What its workers run, and where those of each group listen.
    pub crew: Crew,
    /// The workers that are ready.
    pub ready: Numbers,
    /// How many rounds of starts a settle makes before it gives up, from 0 to 8.
    pub rounds: u32,
    /// The groups before the plan and those that its target wants.
    pub sides: Sides,
}
