//! How far the execution of a plan has come.
ghost use Rattle.std.specs.Prelude.{◌≡◌, ◌+◌, ◌<◌, ◌≤◌, ◌^◌, ◌↔◌, true, false, List, IsTrue, IfSome, IfNone, None, is_none};
ghost use Rattle.definitions.specs.Plans.{Turn};
ghost use Rattle.vocabulary.specs.declared.calls.Answer.TheVariants.{MasterGone};
ghost use Rattle.definitions.specs.Master.{shortfalls_of};
ghost use Rattle.call_laws.specs.Lengths.{height};
ghost use Rattle.call_laws.specs.Pieces.{lacked_last};
ghost use Rattle.call_laws.specs.Pieces.{first_cause};
ghost use Rattle.rollback_plan.specs.Plans.{tree_under, length_of, note_of, sides_told};
ghost use Rattle.plan_walk.specs.Fit.{answers_next, height_next};
ghost use Rattle.plan_walk.specs.Rests.{rest_in};

use call_replies::{plain_reply, reply_to};
use rollback_plan::{Bound, Cursor, Plan};
use vocabulary::{Actor, Call, End, Entry, Outcome, PidNote, Report, Side, Sides, Turn};
use worker_groups::{Groups, Shortfalls};

/// A call that is due, and the master that makes it.
#[derive(Clone, Copy)]
pub struct Due {
    pub by: Actor,
    pub call: Call,
}

/// How far the execution of a plan has come: where it is, what the last census said, what the report
/// will say, and the groups of both sides, by which it says what one lacks.
#[derive(Clone, Copy)]
pub struct Walk<'a> {
    rest: Option<Cursor<'a>>,
    bound: Bound,
    note: PidNote,
    cause: Option<u32>,
    made: u32,
    sides: &'a Sides,
    ghost answers: { (turns : List Turn) → IsTrue (answers_next (rest_in rest turns)) },
    ghost countable: { (turns : List Turn) → made + height_next (rest_in rest turns) < 2 ^ 32 },
}

impl<'a> Walk<'a> {
    ghost use Rattle.call_replies.specs.Replies.{is_listed};
    ghost use Rattle.plan_walk.specs.Path.{begin, advance, Asks, IsOver, IsOutcome, Reports};
    ghost use Rattle.rollback_plan.specs.Places.{without_first};
    ghost use Rattle.plan_walk.specs.Walk.{trail_under, trail_of, left_by, sides_in, IsTurnOf, IsAsked, IsAtEnd, IsDue, AsksFor};

    /// Before the first call.
    pub fn new(plan: &'a Plan) -> Walk<'a>
        ensures trail { (turns : List Turn) → trail_under result turns ≡ begin (tree_under plan.now turns) (note_of plan.now) }
        ensures sides { sides_in result ≡ sides_told plan.now }
        ensures counted { length_of plan.now < 2 ^ 32 }
        ensures longest { (turns : List Turn) → height (tree_under plan.now turns) ≤ length_of plan.now }
    {
        Walk {
            rest: Some(plan.start()),
            bound: Bound::new(),
            note: plan.note(),
            cause: None,
            made: 0,
            sides: plan.sides(),
        }
    }

    /// The call that is due where it is this master's turn; none where the walk is over.
    pub fn due_at(&self, turn: Turn) -> Option<Due>
        ensures some { IfSome result (λ due. IsDue self.now turn due.by due.call) }
        ensures none { IfNone result ((turns : List Turn) → IsOver (trail_under self.now turns).rest) }
    {
        let step = self.rest?.step(turn)?;
        Some(Due {
            by: step.by,
            call: self.bound.call(step),
        })
    }

    /// The call that is due where the new master goes on until its part has ended; none where the walk is over.
    pub fn due(&self) -> Option<Due>
        ensures some { IfSome result (λ due. AsksFor (trail_of self.now) due.by due.call) }
        ensures none { IfNone result (IsOver (trail_of self.now).rest) }
    {
        self.due_at(Turn::New)
    }

    /// Whether both masters have a step, so that a call uses up a turn.
    pub fn takes_turns(&self) -> bool
        ensures both { result ≡ true → (turns : List Turn) → left_by self.now turns ≡ without_first turns }
        ensures alone { result ≡ false → (turns : List Turn) → left_by self.now turns ≡ turns }
    {
        match self.rest {
            Some(cursor) => cursor.takes_turns(),
            None => false,
        }
    }

    /// At whose turn an entry's call is due: as no master has steps in both parts, at no other.
    pub fn turn_of(&self, entry: &Entry) -> Turn
        ensures { (turns : List Turn) → Asks (trail_under self.now turns).rest (trail_under self.now turns).lacked entry.now → IsTurnOf self.now result turns }
    {
        match self.rest {
            Some(cursor) => cursor.turn_of(entry.by),
            None => Turn::New,
        }
    }

    /// The walk after the call that is due at this turn, and its answer.
    pub fn after_at(&self, turn: Turn, entry: &Entry) -> Walk<'a>
        requires asks { IsAsked self.now turn entry.now }
        requires listed { IsTrue (is_listed entry.now.call entry.now.answer) }
        ensures trail { (turns : List Turn) → IsTurnOf self.now turn turns → trail_under result (left_by self.now turns) ≡ advance (trail_under self.now turns) entry.now }
        ensures sides { sides_in result ≡ sides_in self.now }
        ensures lost { (trail_of result).rest ≡ None → entry.now.answer ≡ MasterGone }
        ensures lower { (turns : List Turn) → IsTurnOf self.now turn turns → height_next (trail_under result (left_by self.now turns)).rest + 1 ≤ height_next (trail_under self.now turns).rest }
    {
        let Some(cursor) = self.rest else {
            unreachable!()
        };
        let Some(step) = cursor.step(turn) else {
            unreachable!()
        };
        let made = self.made + 1;
        let plain = reply_to(&entry.answer, &step.set()) == plain_reply(&entry.call);
        let mut bound = self.bound;
        bound.take(step, &entry.answer);
        let cause = first_cause(self.cause, !plain, made);
        let Some(way) = cursor.follow(turn, &entry.answer) else {
            return Walk {
                rest: None,
                bound,
                note: self.note,
                cause,
                made,
                sides: self.sides,
            };
        };
        Walk {
            rest: Some(way.rest),
            bound,
            note: way.note.unwrap_or(self.note),
            cause,
            made,
            sides: self.sides,
        }
    }

    /// The walk after the call that is due where the new master goes on until its part has ended, and its answer.
    pub fn after(&self, entry: &Entry) -> Walk<'a>
        requires asks { Asks (trail_of self.now).rest (trail_of self.now).lacked entry.now }
        requires listed { IsTrue (is_listed entry.now.call entry.now.answer) }
        ensures trail { trail_of result ≡ advance (trail_of self.now) entry.now }
        ensures sides { sides_in result ≡ sides_in self.now }
        ensures lost { (trail_of result).rest ≡ None → entry.now.answer ≡ MasterGone }
        ensures lower { height_next (trail_of result).rest + 1 ≤ height_next (trail_of self.now).rest }
    {
        self.after_at(Turn::New, entry)
    }

    /// Whether the last answer had no edge.
    pub fn is_lost(&self) -> bool
        ensures { (turns : List Turn) → result ≡ is_none (trail_under self.now turns).rest }
    {
        self.rest.is_none()
    }

    /// Whether the walk is over: at an end, or where the last answer had no edge.
    pub fn is_over(&self) -> bool
        ensures { (turns : List Turn) → IsTrue result ↔ IsOver (trail_under self.now turns).rest }
    {
        match self.rest {
            Some(cursor) => cursor.end().is_some(),
            None => true,
        }
    }

    /// What the report says of a walk that is over.
    pub fn report(&self) -> Report
        requires { IsAtEnd self.now }
        ensures { (turns : List Turn) → Reports (sides_in self.now) (trail_under self.now turns) result }
    {
        Report {
            outcome: self.outcome(),
            cause: self.cause,
            note: self.note,
            ready: self.bound.counted(),
        }
    }

    fn outcome(&self) -> Outcome
        requires { IsAtEnd self.now }
        ensures { (turns : List Turn) → IsOutcome (sides_in self.now) (trail_under self.now turns).rest (lacked_last (trail_under self.now turns).lacked) result }
    {
        let Some(cursor) = self.rest else {
            return Outcome::Lost;
        };
        match cursor.end() {
            Some(End::Done) => Outcome::Done,
            Some(End::RolledBack) => Outcome::RolledBack,
            Some(End::ShortOld) => self.degraded(Side::Old, &self.sides.old),
            Some(End::ShortTarget) => self.degraded(Side::Target, &self.sides.target),
            // No run ends at a mark.
            Some(End::Split | End::JoinReady | End::JoinBack | End::Join) => Outcome::Done,
            None => unreachable!(),
        }
    }

    /// A side of these groups that lacks what the last census lacked.
    fn degraded(&self, side: Side, groups: &Groups) -> Outcome
        ensures { result ≡ Outcome.Degraded side (shortfalls_of groups.now (lacked_last (trail_of self.now).lacked)) }
    {
        Outcome::Degraded {
            side,
            shortfalls: Shortfalls::of(groups, &self.bound.lacking()),
        }
    }
}

/// The first call that went wrong, after the call of a number.
fn first_cause(before: Option<u32>, wrong: bool, number: u32) -> Option<u32>
    ensures { result ≡ first_cause before wrong number }
{
    match before {
        Some(first) => Some(first),
        None if wrong => Some(number),
        None => None,
    }
}
