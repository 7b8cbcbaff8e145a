//! A plan out of a draft.
ghost use Rattle.std.specs.Prelude.{◌≡◌, ◌<◌, ◌≤◌, List, None, IfOk, IsTrue, false, length};
ghost use Rattle.definitions.specs.Plans.{Turn};
ghost use Rattle.call_laws.specs.Lengths.{height};
ghost use Rattle.plan_steps.specs.Fit.{is_fit};
ghost use Rattle.plan_steps.specs.Numbering.{IsNumbering};
ghost use Rattle.plan_steps.specs.Stretches.{AreParts, longest_at};
ghost use Rattle.plan_steps.specs.Woven.{woven_at, IsNumberedInParts};
ghost use Rattle.rollback_plan.specs.Masters.{are_apart};

use crate::{Draft, Plan};
use plan_steps::{Parts, Place, number_in_parts, number_steps};
use std::alloc::AllocError;
use vocabulary::{PidNote, Sides};

impl Draft {
    ghost use Rattle.rollback_plan.specs.Drafts.{steps_in, trees_of, tree_at, AreFit};
    ghost use Rattle.rollback_plan.specs.Plans.{steps_of, tree_of, tree_under, parts_of, length_of, note_of, sides_told, text_of, trees_in};

    /// The plan that begins at a place. Steps that the first one doesn't lead to are not
    /// in it; the others are numbered from 1 by the greatest number of steps on a path to them, equal ones in
    /// the order in which a walk, first edge first, first meets them.
    pub fn finish(
        self,
        first: Place,
        note: PidNote,
        sides: &Sides,
        text: Vec<u8>,
    ) -> Result<Plan, AllocError>
        requires made { first.0 < length (trees_of self) }
        requires fit { IsTrue (is_fit false (tree_at self first)) }
        ensures tree { IfOk result (λ plan. (turns : List Turn) → tree_under plan turns ≡ tree_at self first) }
        ensures note { IfOk result (λ plan. note_of plan ≡ note) }
        ensures sides { IfOk result (λ plan. sides_told plan ≡ sides.now) }
        ensures text { IfOk result (λ plan. text_of plan ≡ text.items) }
        ensures few { IfOk result (λ plan. length (trees_in plan) ≤ length (trees_of self)) }
        ensures longest { IfOk result (λ plan. length_of plan ≡ height (tree_of plan)) }
        ensures alone { IfOk result (λ plan. parts_of plan ≡ None) }
        ensures numbered { IfOk result (λ plan. IsNumbering (steps_in self) first.0 (steps_of plan)) }
    {
        let Draft { steps } = self;
        let alloc = *steps.allocator();
        let numbered = number_steps(alloc, steps, first)?;
        Ok(Plan {
            steps: numbered.steps,
            longest: numbered.longest,
            parts: None,
            note,
            sides: *sides,
            text,
        })
    }

    /// The plan that begins at a place and has parts of two masters, of which neither has steps in both. It stands for the two trees at their places, woven
    /// by whatever turns the masters take. Four stretches are numbered one after another: the steps that lead to the
    /// parts, the new master's part, the old one's, and the rest.
    pub fn finish_in_parts(
        self,
        first: Place,
        parts: &Parts,
        note: PidNote,
        sides: &Sides,
        text: Vec<u8>,
    ) -> Result<Plan, AllocError>
        requires made { first.0 < length (trees_of self) }
        requires parts { AreParts (steps_in self) first.0 parts.now }
        requires apart { IsTrue (are_apart (tree_at self parts.now.new) (tree_at self parts.now.old)) }
        requires fit { AreFit self first parts.now }
        ensures tree { IfOk result (λ plan. (turns : List Turn) → tree_under plan turns ≡ woven_at (steps_in self) first.0 parts.now turns) }
        ensures note { IfOk result (λ plan. note_of plan ≡ note) }
        ensures sides { IfOk result (λ plan. sides_told plan ≡ sides.now) }
        ensures text { IfOk result (λ plan. text_of plan ≡ text.items) }
        ensures few { IfOk result (λ plan. length (trees_in plan) ≤ length (trees_of self)) }
        ensures longest { IfOk result (λ plan. length_of plan ≡ longest_at (steps_in self) first.0 parts.now) }
        ensures numbered { IfOk result (λ plan. IsNumberedInParts (steps_in self) first.0 parts.now (steps_of plan) (parts_of plan)) }
    {
        let Draft { steps } = self;
        let alloc = *steps.allocator();
        let numbered = number_in_parts(alloc, steps, first, parts)?;
        let sides = *sides;
        Ok(Plan {
            steps: numbered.steps,
            longest: numbered.longest,
            parts: Some(numbered.parts),
            note,
            sides,
            text,
        })
    }
}
