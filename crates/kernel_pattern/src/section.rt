//! Sections: all that decides the course of a run.
use crate::pattern::Pattern;
use plan_turns::Turns;
use std::alloc::Global;

/// What happens in a run beside the plan: who exits and which calls fail, and whose turn it is where two masters carry it
/// out side by side.
#[derive(Drop)]
pub struct Section {
    pub pattern: Pattern,
    pub turns: Turns,
}

impl Section {
    ghost use Rattle.std.specs.Prelude.{◌≡◌, []};

    /// Nothing goes wrong, and the new master goes on until its part has ended.
    pub fn new(alloc: Global) -> Self
        ensures pattern { result.pattern ≡ [] }
        ensures turns { result.turns ≡ [] }
    {
        Section::of(alloc, Pattern::new(alloc))
    }

    /// A pattern, where the new master goes on until its part has ended.
    pub fn of(alloc: Global, pattern: Pattern) -> Self
        ensures pattern { result.pattern ≡ pattern }
        ensures turns { result.turns ≡ [] }
    {
        Section {
            pattern,
            turns: Turns::new(alloc),
        }
    }
}
