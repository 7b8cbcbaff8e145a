//! The turns that entries use.
ghost use Rattle.std.specs.Prelude.{◌≡◌, ◌+◌, ◌<◌, ◌≤◌, ◌^◌, ◌++◌, ◌∷◌, [], OnOk};
ghost use Rattle.vocabulary.specs.declared.plans.Turn.TheVariants.{Old};
ghost use Rattle.certifier.specs.Turns.{used_in, IsTrimmed, UsesTurn};

use kernel_model::Turns;
use plan_walk::Walk;
use std::alloc::{AllocError, Global};
use vocabulary::Turn;

/// The turns that entries have used so far. Those of the new master behind the last of the old one are only counted: at
/// the end of a list they change nothing.
#[derive(Drop)]
pub(crate) struct TurnsUsed {
    pub(crate) told: Turns,
    late: u32,
}

impl TurnsUsed {
    /// No turn was used.
    pub(crate) fn none(alloc: Global) -> TurnsUsed
        ensures told { result.told ≡ [] }
        ensures late { result.late ≡ 0 }
    {
        TurnsUsed {
            told: Turns::new(alloc),
            late: 0,
        }
    }

    /// One turn more was used.
    fn add(&mut self, turn: Turn) -> Result<(), AllocError>
        requires { self.old.late + 1 < 2 ^ 32 }
        ensures used { OnOk result (used_in self.new ≡ used_in self.old ++ turn ∷ []) }
        ensures trimmed { OnOk result (IsTrimmed self.old.told → IsTrimmed self.new.told) }
        ensures late { OnOk result (self.new.late ≤ self.old.late + 1) }
    {
        match turn {
            Turn::New => {
                self.late += 1;
                Ok(())
            }
            Turn::Old => self.add_old(),
        }
    }

    /// A turn of the old master was used. So those of the new one before it are told.
    fn add_old(&mut self) -> Result<(), AllocError>
        ensures told { OnOk result (self.new.told ≡ used_in self.old ++ Old ∷ []) }
        ensures late { OnOk result (self.new.late ≡ 0) }
    {
        while self.late > 0 {
            self.told.add(Turn::New)?;
            self.late -= 1;
        }
        self.told.add(Turn::Old)
    }

    /// A call was made at this turn, which it used up where both masters had a step.
    pub(crate) fn follow(&mut self, walk: &Walk<'_>, turn: Turn) -> Result<(), AllocError>
        requires { self.old.late + 1 < 2 ^ 32 }
        ensures used { OnOk result (UsesTurn walk.now turn (used_in self.old) (used_in self.new)) }
        ensures trimmed { OnOk result (IsTrimmed self.old.told → IsTrimmed self.new.told) }
        ensures late { OnOk result (self.new.late ≤ self.old.late + 1) }
    {
        if walk.takes_turns() {
            self.add(turn)
        } else {
            Ok(())
        }
    }
}
