//! What a reload in steps brings.
use listener_set::{Address, Numbers};
use vocabulary::Actor;
use worker_groups::Crew;

/// What a reload in steps brings, but its steps.
#[derive(Clone, Copy)]
pub(crate) struct SteppedRenewal<'a> {
    /// The master that reloads.
    pub(crate) by: Actor,
    /// Whether the operator is asked in the first step.
    pub(crate) asked: bool,
    /// What the old and the new workers run, and where those of each group listen.
    pub(crate) old: Crew,
    pub(crate) new: Crew,
    /// How many rounds of starts a settle makes before it gives up.
    pub(crate) rounds: u32,
    /// The numbers of all new workers.
    pub(crate) wanted: Numbers,
    /// The new workers that the last step starts, and the old ones that are left for it.
    pub(crate) last: &'a [u32],
    pub(crate) left: &'a [u32],
    /// The addresses that are listened on no more.
    pub(crate) dropped: &'a [Address],
}
