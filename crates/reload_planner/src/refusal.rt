//! Why there is no plan.
ghost use Rattle.std.specs.Prelude.{◌≡◌, ◌≤◌, length};

use rollback_plan::DraftRefusal;
use std::alloc::AllocError;
use std::error::Error;
use std::fmt;

/// Why there is no plan.
#[derive(Clone, Copy, Debug, PartialEq, Eq)]
pub enum PlanRefusal {
    /// P1: the plan would have more than 65,536 steps.
    TooLarge,
    /// P2: no plan is made for such a target here.
    Unplanned,
    /// P3: a number of the target's generation would pass 4,294,967,295.
    NoGeneration,
    /// Memory was refused.
    Memory,
}

impl PlanRefusal {
    ghost use Rattle.reload_planner.specs.Codes.{plan_code};

    /// The code of the refusal, as it is printed; of want of memory no word prints any.
    pub fn code(&self) -> &'static str
        ensures code { result.now ≡ plan_code self.now }
        ensures short { length result.now ≤ 13 }
    {
        match self {
            PlanRefusal::TooLarge => "P1",
            PlanRefusal::Unplanned => "P2",
            PlanRefusal::NoGeneration => "P3",
            PlanRefusal::Memory => "out of memory",
        }
    }
}

/// Printed as its code.
impl fmt::Display for PlanRefusal {
    ghost use Rattle.std.specs.Prelude.{Some};
    ghost use Rattle.reload_planner.specs.Codes.{plan_code};

    ghost output = { λ refusal. Some (plan_code refusal) };

    fn fmt<W: fmt::Write>(&self, f: &mut fmt::Formatter<W>) -> fmt::Result {
        f.write_str(self.code())
    }
}

impl Error for PlanRefusal {}

impl From<DraftRefusal> for PlanRefusal {
    ghost use Rattle.std.specs.Prelude.{◌≡◌};
    ghost use Rattle.reload_planner.specs.Refusals.{plan_refusal};

    ghost from_gives = { λ d e. e ≡ plan_refusal d };

    fn from(refusal: DraftRefusal) -> PlanRefusal {
        match refusal {
            DraftRefusal::TooLarge => PlanRefusal::TooLarge,
            DraftRefusal::Memory => PlanRefusal::Memory,
        }
    }
}

impl From<AllocError> for PlanRefusal {
    ghost use Rattle.std.specs.Prelude.{◌≡◌};
    ghost use Rattle.reload_planner.specs.declared.refusal.PlanRefusal.TheVariants.{Memory};

    ghost from_gives = { λ _ e. e ≡ Memory };

    fn from(_error: AllocError) -> PlanRefusal {
        PlanRefusal::Memory
    }
}
