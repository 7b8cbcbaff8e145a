//! The parts of a plan.
use crate::Place;

/// Where the parts of two masters begin, and where the plan goes on when both have ended: where the new one's is ready,
/// and where it leads back.
#[derive(Clone, Copy, Debug, PartialEq, Eq)]
pub struct Parts {
    pub new: Place,
    pub old: Place,
    pub ready: Place,
    pub back: Place,
}
