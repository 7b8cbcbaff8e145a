//! The old master's part of a plan with two parts: it replaces the workers that it loses.
ghost use Rattle.std.specs.Prelude.{◌+◌, ◌*◌, IfOk};
ghost use Rattle.definitions.specs.Plans.{old_part};

use crate::{Draft, DraftRefusal, Next, Place, PlanEdge};
use listener_set::Numbers;
use vocabulary::{Actor, Call, End, Order, Reply};
use worker_groups::Crew;

impl Draft {
    ghost use Rattle.rollback_plan.specs.Drafts.{IsMade, Grows};

    /// Adds the old master's part of a plan with two: a census of the set and, where it lacks a number, a start of the
    /// lowest one that it lacks and the census again, at most so many rounds of starts. The part ends with a full census,
    /// and with the last one whatever it says. A refused call may leave some steps of it.
    pub fn mending(
        &mut self,
        by: Actor,
        crew: &Crew,
        set: &Numbers,
        rounds: u32,
    ) -> Result<Place, DraftRefusal>
        ensures made { IfOk result (λ place. IsMade self.new place (old_part by crew.now set.now rounds)) }
        ensures grows { Grows self.old self.new result (1 + 4 * rounds) }
    {
        let mut place = self.add(
            by,
            Order::Make(Call::Census(crew.generation)),
            set,
            &[PlanEdge::over(&[Reply::Full, Reply::Short], End::Join)],
        )?;
        for _round in 0..rounds {
            let start = self.add_round(by, crew, place)?;
            place = self.census(by, crew.generation, set, End::Join, Next::To(start))?;
        }
        Ok(place)
    }
}
