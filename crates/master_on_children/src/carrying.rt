//! Targets carried out on real children.
ghost use Rattle.std.specs.Prelude.{◌≡◌, IfOk, IfErr, IsErrOf, OnErr};
ghost use Rattle.service_state.specs.Targets.{IsTarget};
ghost use Rattle.word_runner.specs.Enactors.{HasCode};
ghost use Rattle.upgrade_planner.specs.Planned.{HasPlan};
ghost use Rattle.master_on_children.specs.Carried.{IsUnplanned, IsCarriedOut};

use crate::Attended;
use crate::taking_turns::turns_by_turns;
use child_family::Family;
use log::Log;
use plan_walk::{Transcript, execute};
use reload_planner::PlanRefusal;
use service_state::Record;
use std::alloc::Global;
use std::io::Read;
use std::marker::PhantomData;
use vocabulary::Target;
use word_runner::{CodeText, Enacted, Enactor, TargetRefusal};

/// What carries targets out on the children of a family.
#[derive(Clone, Copy)]
pub struct OnChildren<F: Family + Drop, I: Read + Drop, L: Log + Drop> {
    world: PhantomData<Attended<F, I, L>>,
}

impl<F: Family + Drop, I: Read + Drop, L: Log + Drop> OnChildren<F, I, L> {
    /// On the children of any edge over such a family.
    pub fn new() -> OnChildren<F, I, L> {
        OnChildren { world: PhantomData }
    }
}

impl<F: Family + Drop, I: Read + Drop, L: Log + Drop> Enactor for OnChildren<F, I, L> {
    type World = Attended<F, I, L>;

    ghost enacts = { λ _ first place r target done last. IsCarriedOut I.remaining first r target done last };

    ghost declines = { λ _ first place r target code. IsUnplanned r target code };

    ghost wants_memory = { λ _ first place r target. HasPlan r target };

    /// Carries a target out on the children of an edge, with the operator's answers: its plan is made, memory for all of its
    /// calls is taken, that of the edge last, and then the calls are made. In an upgrade the two masters take turns.
    fn enact(
        &self,
        alloc: Global,
        world: &mut Attended<F, I, L>,
        _place: usize,
        state: &Record,
        target: &Target,
    ) -> Result<Enacted, TargetRefusal> {
        let plan = match upgrade_planner::plan_target(alloc, state, target) {
            Ok(plan) => plan,
            Err(PlanRefusal::Memory) => return Err(TargetRefusal::Memory),
            Err(refusal) => return Err(TargetRefusal::Coded(CodeText::unplanned(refusal))),
        };
        let longest = plan.longest();
        let Ok(mut log) = Transcript::with_room(alloc, longest) else {
            return Err(TargetRefusal::Memory);
        };
        let Ok(turns) = turns_by_turns(alloc, state.retries) else {
            return Err(TargetRefusal::Memory);
        };
        if world.edge.reserve(longest, plan.text()).is_err() {
            return Err(TargetRefusal::Memory);
        }
        let report = execute(&plan, world, &turns, &mut log);
        let after = state.after(target, &report, state.pid);
        Ok(Enacted { log, report, after })
    }
}
