//! A plan.
ghost use Rattle.std.specs.Prelude.{◌≡◌, ◌-◌, ◌<◌, ◌≤◌, IsTrue, length, slice_get, vec_len};
ghost use Rattle.std.specs.Option.{option_copied, option_map};
ghost use Rattle.plan_steps.specs.Steps.{all_lead_on};
ghost use Rattle.plan_steps.specs.Woven.{length_in, plan_answers, IsNumberedWith, parts_placed};
ghost use Rattle.rollback_plan.specs.Masters.{parts_apart};

use plan_steps::{Parts, Step};
use vocabulary::{PidNote, Sides};

/// Steps whose edges lead to later ones or to ends. Contracts see the tree of the first step.
///
/// Steps are numbered from 1 by the greatest number of steps on a path from the first step to
/// them, equal ones in the order in which a walk, first edge first, first meets them. A plan may have parts of two
/// masters, which take turns, and of which neither has steps in both: then it numbers four stretches in a row, and stands for a tree under each list of turns.
#[derive(Drop)]
pub struct Plan {
    pub(crate) steps: Vec<Step>,
    pub(crate) longest: u32,
    pub(crate) parts: Option<Parts>,
    pub(crate) note: PidNote,
    pub(crate) sides: Sides,
    pub(crate) text: Vec<u8>,
    ghost begins: { 0 < vec_len steps },
    ghost leads_on: { IsTrue (all_lead_on 1 steps.items) },
    ghost placed: { IsTrue (parts_placed steps.items parts) },
    ghost apart: { IsTrue (parts_apart steps.items parts) },
    ghost answers: { IsTrue (plan_answers steps.items parts) },
    ghost tall: { longest ≡ length_in steps.items parts },
    ghost numbered: { ∥ IsNumberedWith steps.items parts ∥₁ },
}

impl Plan {
    ghost use Rattle.rollback_plan.specs.Plans.{length_of, parts_of, trees_in, steps_of, note_of, sides_told, text_of};

    /// The step with a number, from 1.
    pub fn get(&self, number: u32) -> Option<&Step>
        requires { 1 ≤ number }
        ensures { option_copied result ≡ slice_get self.now.steps.items (number - 1) }
    {
        self.steps.get(number as usize - 1)
    }

    /// The steps in order, of which the first has number 1.
    pub fn steps(&self) -> &[Step]
        ensures steps { result.now ≡ steps_of self.now }
        ensures numbered { ∥ IsNumberedWith (steps_of self.now) (parts_of self.now) ∥₁ }
    {
        &self.steps
    }

    /// How many steps there are.
    pub fn len(&self) -> usize
        ensures { result ≡ length (trees_in self.now) }
    {
        self.steps.len()
    }

    /// How many steps the longest path has; with two parts, the sum over the steps that lead to them, both of them, and
    /// the rest.
    pub fn longest(&self) -> u32
        ensures { result ≡ length_of self.now }
    {
        self.longest
    }

    /// The places of the parts of two masters; none where the plan has none.
    pub fn parts(&self) -> Option<Parts>
        ensures { result ≡ parts_of self.now }
    {
        self.parts
    }

    /// The numbers of the steps where the plan goes on when both parts have ended: where the new master's is ready, and
    /// where it leads back. None where it has no parts.
    pub fn join(&self) -> Option<(u32, u32)>
        ensures { result ≡ option_map (λ p. (p.ready.0, p.back.0)) (parts_of self.now) }
    {
        let parts = self.parts?;
        Some((parts.ready.0, parts.back.0))
    }

    /// Where the pid file stood when the plan was made.
    pub fn note(&self) -> PidNote
        ensures { result ≡ note_of self.now }
    {
        self.note
    }

    /// The groups of both sides, by which a report says what one lacks.
    pub fn sides(&self) -> &Sides
        ensures { result.now ≡ sides_told self.now }
    {
        &self.sides
    }

    /// The handover text for a new master; empty where there is none.
    pub fn text(&self) -> &[u8]
        ensures { result.now ≡ text_of self.now }
    {
        &self.text
    }
}
