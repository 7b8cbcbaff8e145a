//! How far the execution of a plan has come by given turns.
ghost use Rattle.std.specs.Prelude.{◌≡◌, ◌+◌, ◌<◌, ◌≤◌, ◌^◌, IsTrue, IfSome, IfNone, None, drop};
ghost use Rattle.vocabulary.specs.declared.calls.Answer.TheVariants.{MasterGone};
ghost use Rattle.call_laws.specs.Lengths.{height};
ghost use Rattle.call_replies.specs.Replies.{is_listed};
ghost use Rattle.plan_walk.specs.Path.{begin, advance, Asks, IsOver, Reports};
ghost use Rattle.rollback_plan.specs.Places.{turn_of};
ghost use Rattle.rollback_plan.specs.Plans.{tree_under, length_of, note_of, sides_told};
ghost use Rattle.plan_walk.specs.Fit.{height_next};
ghost use Rattle.plan_walk.specs.Walk.{left_by, AsksFor};

use crate::walk::{Due, Walk};
use plan_turns::Turns;
use rollback_plan::{Cursor, Plan};
use std::marker::PhantomData;
use vocabulary::{Entry, Report, Turn};

/// How far the execution of a plan has come where it is given whose turn it is: as a list says, and after its end the new
/// master goes on first. Contracts see its trail.
#[derive(Clone, Copy)]
pub struct Course<'a> {
    walk: Walk<'a>,
    turns: &'a Turns,
    used: usize,
    // Takes no room. The prover must be told of each type that a course has in it.
    held: PhantomData<Cursor<'a>>,
    ghost few: { used ≤ walk.made },
}

impl<'a> Course<'a> {
    ghost use Rattle.plan_walk.specs.Course.{turns_of, turns_left, trail_on, sides_on};

    /// Before the first call.
    pub fn new(plan: &'a Plan, turns: &'a Turns) -> Course<'a>
        ensures trail { trail_on result ≡ begin (tree_under plan.now turns.now) (note_of plan.now) }
        ensures sides { sides_on result ≡ sides_told plan.now }
        ensures turns { turns_of result ≡ turns.now }
        ensures counted { length_of plan.now < 2 ^ 32 }
        ensures longest { height (tree_under plan.now turns.now) ≤ length_of plan.now }
    {
        Course {
            walk: Walk::new(plan),
            turns,
            used: 0,
            held: PhantomData,
        }
    }

    /// Whose turn is next: after the end of the list, the new master's.
    fn turn(&self) -> Turn
        ensures { result ≡ turn_of (turns_left self.now) }
    {
        self.turns.get(self.used).unwrap_or(Turn::New)
    }

    /// The call that is due; none where the execution is over.
    pub fn due(&self) -> Option<Due>
        ensures some { IfSome result (λ due. AsksFor (trail_on self.now) due.by due.call) }
        ensures none { IfNone result (IsOver (trail_on self.now).rest) }
    {
        self.walk.due_at(self.turn())
    }

    /// How many turns are used after the call that is due.
    fn used_after(&self) -> usize
        requires { self.now.walk.made + 1 < 2 ^ 32 }
        ensures left { left_by self.now.walk (turns_left self.now) ≡ drop result (turns_of self.now) }
        ensures few { result ≤ self.now.used + 1 }
    {
        if self.walk.takes_turns() {
            self.used + 1
        } else {
            self.used
        }
    }

    /// The course after the call that is due and its answer.
    pub fn after(&self, entry: &Entry) -> Course<'a>
        requires asks { Asks (trail_on self.now).rest (trail_on self.now).lacked entry.now }
        requires listed { IsTrue (is_listed entry.now.call entry.now.answer) }
        ensures trail { trail_on result ≡ advance (trail_on self.now) entry.now }
        ensures sides { sides_on result ≡ sides_on self.now }
        ensures turns { turns_of result ≡ turns_of self.now }
        ensures lost { (trail_on result).rest ≡ None → entry.now.answer ≡ MasterGone }
        ensures lower { height_next (trail_on result).rest + 1 ≤ height_next (trail_on self.now).rest }
    {
        Course {
            walk: self.walk.after_at(self.turn(), entry),
            turns: self.turns,
            used: self.used_after(),
            held: PhantomData,
        }
    }

    /// What the report says of an execution that is over.
    pub fn report(&self) -> Report
        requires { IsOver (trail_on self.now).rest }
        ensures { Reports (sides_on self.now) (trail_on self.now) result }
    {
        self.walk.report()
    }
}
