//! A plan that is built from its ends up.
ghost use Rattle.std.specs.Prelude.{◌≡◌, ◌++◌, ◌∷◌, [], ◌+◌, ◌<◌, ◌≤◌, ◌↔◌, length, IsTrue, IfOk, IsErrOf, OnOk, OnErr, vec_len, vec_capacity, take};
ghost use Rattle.definitions.specs.Run.{Does};
ghost use Rattle.plan_steps.specs.Steps.{step_tree, leads_back, all_lead_back, all_below};
ghost use Rattle.plan_steps.specs.Stretches.{all_split_to};

use listener_set::Numbers;
use plan_steps::{Place, PlanEdge, Step};
use std::alloc::{AllocError, AllocFailed, Global};
use thiserror::Error;
use vocabulary::{Actor, Order};

/// The most steps that a draft can have.
pub const MOST_STEPS: usize = 65_536;

/// Why steps are not added.
#[derive(Clone, Copy, Debug, PartialEq, Eq, Error)]
pub enum DraftRefusal {
    /// The draft would have more than 65,536 steps.
    #[error("P1")]
    TooLarge,
    #[error("out of memory")]
    Memory,
}

impl<T: Drop> From<AllocFailed<T>> for DraftRefusal {
    ghost use Rattle.std.specs.Prelude.{◌≡◌};
    ghost use Rattle.rollback_plan.specs.declared.draft.DraftRefusal.TheVariants.{Memory};

    ghost from_gives = { λ _ e. e ≡ Memory };

    fn from(_error: AllocFailed<T>) -> DraftRefusal {
        DraftRefusal::Memory
    }
}

impl From<AllocError> for DraftRefusal {
    ghost use Rattle.std.specs.Prelude.{◌≡◌};
    ghost use Rattle.rollback_plan.specs.declared.draft.DraftRefusal.TheVariants.{Memory};

    ghost from_gives = { λ _ e. e ≡ Memory };

    fn from(_error: AllocError) -> DraftRefusal {
        DraftRefusal::Memory
    }
}

/// Steps whose edges lead to earlier ones or to ends. Contracts see the tree at each place.
#[derive(Drop)]
pub struct Draft {
    pub(crate) steps: Vec<Step>,
    ghost few: { vec_len steps ≤ 65536 },
    ghost back: { IsTrue (all_lead_back 0 steps.items) },
}

impl Draft {
    ghost use Rattle.std.specs.Prelude.{ℕ};
    ghost use Rattle.rollback_plan.specs.Drafts.{trees_of, branches_in, splits_in, are_plain, IsMade, Extends, Keeps};

    /// A draft without steps.
    pub fn new(alloc: Global) -> Draft
        ensures none { trees_of result ≡ [] }
        ensures splits { (a : ℕ) (b : ℕ) → IsTrue (splits_in a b result) }
    {
        Draft {
            steps: Vec::new(alloc),
        }
    }

    /// A draft without steps, with memory for so many.
    pub fn with_room(alloc: Global, steps: usize) -> Result<Draft, AllocError>
        ensures none { IfOk result (λ draft. trees_of draft ≡ []) }
        ensures splits { IfOk result (λ draft. (a : ℕ) (b : ℕ) → IsTrue (splits_in a b draft)) }
        ensures room { IfOk result (λ draft. steps ≤ vec_capacity draft.steps) }
    {
        Ok(Draft {
            steps: Vec::with_capacity(alloc, steps)?,
        })
    }

    /// How many steps there are.
    pub fn len(&self) -> usize
        ensures count { result ≡ length (trees_of self.now) }
        ensures few { result ≤ MOST_STEPS }
    {
        self.steps.len()
    }

    /// Adds a step, whose edges lead to places made before or to ends.
    pub fn step(&mut self, step: Step) -> Result<Place, DraftRefusal>
        requires { IsTrue (leads_back (length (trees_of self.old)) step) }
        ensures place { IfOk result (λ place. place.0 ≡ length (trees_of self.old)) }
        ensures ok { OnOk result (trees_of self.new ≡ trees_of self.old ++ step_tree 0 (trees_of self.old) step ∷ []) }
        ensures splits { (a : ℕ) (b : ℕ) → IsTrue (all_split_to a b step.edges.items) → IsTrue (splits_in a b self.old) → IsTrue (splits_in a b self.new) }
        ensures err { OnErr result (trees_of self.new ≡ trees_of self.old) }
        ensures too_large { IsErrOf result DraftRefusal.TooLarge ↔ (length (trees_of self.old) ≡ MOST_STEPS) }
    {
        let place = self.len();
        if place >= MOST_STEPS {
            return Err(DraftRefusal::TooLarge);
        }
        self.steps.push(step)?;
        Ok(Place(place as u32))
    }

    /// Adds a step of these parts, whose edges lead to a place made before or to an end.
    pub fn add(
        &mut self,
        by: Actor,
        order: Order,
        set: &Numbers,
        edges: &[PlanEdge],
    ) -> Result<Place, DraftRefusal>
        requires { IsTrue (are_plain (length (trees_of self.old)) edges.now) }
        ensures made { IfOk result (λ place. IsMade self.new place (Does by order set.now (branches_in self.old edges.now))) }
        ensures count { OnOk result (length (trees_of self.new) ≡ length (trees_of self.old) + 1) }
        ensures keeps { Keeps self.old self.new }
        ensures err { OnErr result (trees_of self.new ≡ trees_of self.old) }
        ensures too_large { IsErrOf result DraftRefusal.TooLarge → MOST_STEPS < length (trees_of self.old) + 1 }
        ensures full { length (trees_of self.old) ≡ MOST_STEPS → IsErrOf result DraftRefusal.TooLarge }
    {
        self.add_split(by, order, set, edges)
    }

    /// Adds a step of these parts, whose edges lead to places made before or to ends, and may lead to the first steps of
    /// two masters' parts.
    pub fn add_split(
        &mut self,
        by: Actor,
        order: Order,
        set: &Numbers,
        edges: &[PlanEdge],
    ) -> Result<Place, DraftRefusal>
        requires { IsTrue (all_below (length (trees_of self.old)) edges.now) }
        ensures made { IfOk result (λ place. IsMade self.new place (Does by order set.now (branches_in self.old edges.now))) }
        ensures count { OnOk result (length (trees_of self.new) ≡ length (trees_of self.old) + 1) }
        ensures extends { Extends self.old self.new }
        ensures splits { (a : ℕ) (b : ℕ) → IsTrue (all_split_to a b edges.now) → IsTrue (splits_in a b self.old) → IsTrue (splits_in a b self.new) }
        ensures err { OnErr result (trees_of self.new ≡ trees_of self.old) }
        ensures too_large { IsErrOf result DraftRefusal.TooLarge → MOST_STEPS < length (trees_of self.old) + 1 }
        ensures full { length (trees_of self.old) ≡ MOST_STEPS → IsErrOf result DraftRefusal.TooLarge }
    {
        if self.len() >= MOST_STEPS {
            return Err(DraftRefusal::TooLarge);
        }
        let alloc = *self.steps.allocator();
        self.step(Step::new(alloc, by, &order, set, edges)?)
    }

    /// Takes all steps out but the first so many.
    pub(crate) fn shorten(&mut self, steps: usize)
        ensures trees { trees_of self.new ≡ take steps (trees_of self.old) }
        ensures splits { (a : ℕ) (b : ℕ) → IsTrue (splits_in a b self.old) → IsTrue (splits_in a b self.new) }
    {
        self.steps.truncate(steps);
    }
}
