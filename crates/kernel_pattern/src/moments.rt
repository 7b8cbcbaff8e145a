//! What happens at one call.
use vocabulary::{Fate, Name};

/// What happens at one call: who exits before it, in this order, and how the call is made to fail.
#[derive(Clone, Copy, Debug)]
pub struct Moment<'a> {
    pub exits: &'a [Name],
    pub fate: Option<Fate>,
}
