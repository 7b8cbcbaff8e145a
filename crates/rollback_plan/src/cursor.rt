//! A place in a plan.
ghost use Rattle.std.specs.Prelude.{◌≡◌, ◌<◌, ◌≤◌, ◌^◌, true, false, List, Some, IfSome, IfNone, IsTrue};
ghost use Rattle.std.specs.Option.{option_map};
ghost use Rattle.call_laws.specs.Lengths.{height};
ghost use Rattle.rollback_plan.specs.Following.{follow};
ghost use Rattle.plan_steps.specs.Steps.{is_within};
ghost use Rattle.plan_steps.specs.Woven.{answers, woven_behind};
ghost use Rattle.rollback_plan.specs.Places.{is_at, tree_at, is_step, is_split, goes_new, chosen_at, end_behind};
ghost use Rattle.rollback_plan.specs.Masters.{are_apart, is_apart, leads_apart, begins_by};

use crate::Plan;
use call_replies::reply_to;
use plan_steps::{Next, Place, Step};
use vocabulary::{Actor, Answer, End, PidNote, Turn};

/// Where a cursor stands: before the parts of two masters, as always in a plan without parts; in both of them, of which
/// one may have ended; or behind them.
#[derive(Clone, Copy)]
enum At {
    Before(Next),
    Beside(Next, Next),
    Behind(Next),
}

/// A place in a plan, one in each of its two parts, or one of its ends. Contracts see the rest of the plan's tree.
#[derive(Clone, Copy)]
pub struct Cursor<'a> {
    plan: &'a Plan,
    at: At,
    ghost within: { IsTrue (is_at plan.now.steps.items plan.now.parts at) },
    ghost apart: { IsTrue (is_apart plan.now.steps.items at) },
}

/// Where an answer leads.
#[derive(Clone, Copy)]
pub struct Way<'a> {
    /// Where the pid file stands from then on, if that changes.
    pub note: Option<PidNote>,
    pub rest: Cursor<'a>,
}

impl Plan {
    ghost use Rattle.definitions.specs.Plans.{Turn};
    ghost use Rattle.definitions.specs.Plans.{weave};
    ghost use Rattle.plan_steps.specs.Steps.{tree_behind};
    ghost use Rattle.rollback_plan.specs.Places.{joined_in, end_at};
    ghost use Rattle.rollback_plan.specs.Cursors.{rest_under};
    ghost use Rattle.rollback_plan.specs.Plans.{tree_under, length_of};

    /// The start of the plan.
    pub fn start(&self) -> Cursor<'_>
        ensures rest { (turns : List Turn) → rest_under result turns ≡ tree_under self.now turns }
        ensures answers { (turns : List Turn) → IsTrue (answers (tree_under self.now turns)) }
        ensures longest { (turns : List Turn) → height (tree_under self.now turns) ≤ length_of self.now }
        ensures counted { length_of self.now < 2 ^ 32 }
    {
        let _longest = self.longest();
        Cursor {
            plan: self,
            at: At::Before(Next::To(Place(1))),
        }
    }

    /// Where an edge leads that is taken before the parts: into both of them, or on.
    fn entered(&self, next: Next) -> At
        requires { IsTrue (is_within self.now.steps.items next) }
        ensures rest { (turns : List Turn) → tree_at self.now.steps.items self.now.parts result turns ≡ woven_behind self.now.steps.items self.now.parts next turns }
        ensures within { IsTrue (is_at self.now.steps.items self.now.parts result) }
        ensures apart { IsTrue (is_apart self.now.steps.items result) }
    {
        match self.parts {
            Some(parts) if is_split(next) => At::Beside(Next::To(parts.new), Next::To(parts.old)),
            _ => At::Before(next),
        }
    }

    /// Where both parts have come: behind them, where both have ended.
    fn beside(&self, new: Next, old: Next) -> At
        requires new { IsTrue (is_within self.now.steps.items new) }
        requires old { IsTrue (is_within self.now.steps.items old) }
        requires apart { IsTrue (are_apart (tree_behind self.now.steps.items new) (tree_behind self.now.steps.items old)) }
        ensures rest { (turns : List Turn) → tree_at self.now.steps.items self.now.parts result turns ≡ weave (joined_in self.now.steps.items self.now.parts) (tree_behind self.now.steps.items new) turns (tree_behind self.now.steps.items old) }
        ensures within { IsTrue (is_at self.now.steps.items self.now.parts result) }
        ensures apart { IsTrue (is_apart self.now.steps.items result) }
    {
        if is_step(new) || is_step(old) {
            At::Beside(new, old)
        } else {
            At::Behind(self.joined(new))
        }
    }

    /// Where the plan goes on when both parts have ended, the new one so.
    fn joined(&self, new: Next) -> Next
        requires { is_step new ≡ false }
        ensures rest { tree_behind self.now.steps.items result ≡ joined_in self.now.steps.items self.now.parts (end_at new) }
        ensures within { IsTrue (is_within self.now.steps.items result) }
    {
        match (self.parts, new) {
            (None, _) => new,
            (Some(parts), Next::Over(End::JoinReady)) => Next::To(parts.ready),
            (Some(parts), _) => Next::To(parts.back),
        }
    }
}

impl<'a> Cursor<'a> {
    ghost use Rattle.definitions.specs.Plans.{Turn};
    ghost use Rattle.rollback_plan.specs.Places.{without_first, end_of, IsEnd};
    ghost use Rattle.rollback_plan.specs.Cursors.{rest_under, left_after, led_to, IsTurn, IsNextStep};

    /// The step that is next where it is this master's turn; none at an end. Only where both parts go on does the turn
    /// make a difference.
    pub fn step(&self, turn: Turn) -> Option<&'a Step>
        ensures some { IfSome result (λ step. IsNextStep self.now turn step.now) }
        ensures none { IfNone result ((turns : List Turn) → IsEnd (rest_under self.now turns)) }
    {
        match self.chosen(turn) {
            Next::To(place) => Some(&self.plan.steps()[place.0 as usize - 1]),
            Next::Over(_) | Next::Both(..) => None,
        }
    }

    /// Where the step stands that is next.
    fn chosen(&self, turn: Turn) -> Next
        ensures { result ≡ chosen_at self.now.at turn }
    {
        match self.at {
            At::Before(next) | At::Behind(next) => next,
            At::Beside(new, old) => if goes_new(new, old, turn) { new } else { old },
        }
    }

    /// Whether both parts go on, so that a step uses up a turn.
    pub fn takes_turns(&self) -> bool
        ensures both { result ≡ true → (turns : List Turn) → left_after self.now turns ≡ without_first turns }
        ensures alone { result ≡ false → (turns : List Turn) → left_after self.now turns ≡ turns }
    {
        match self.at {
            At::Beside(new, old) => is_step(new) && is_step(old),
            At::Before(_) | At::Behind(_) => false,
        }
    }

    /// Whose turn it is where the step that is next is this master's. No master has steps in both parts.
    pub fn turn_of(&self, by: Actor) -> Turn
        ensures { (turns : List Turn) → begins_by by (rest_under self.now turns) → IsTurn self.now result turns }
    {
        match self.step(Turn::Old) {
            Some(step) => if step.by == by { Turn::Old } else { Turn::New },
            None => Turn::New,
        }
    }

    /// How the plan ends here; none at a step.
    pub fn end(&self) -> Option<End>
        ensures { (turns : List Turn) → result ≡ end_of (rest_under self.now turns) }
    {
        match self.at {
            At::Before(next) | At::Behind(next) => end_behind(next),
            At::Beside(..) => None,
        }
    }

    /// Where an answer leads to the step of this turn; none where the step has no edge for it, or at an end. The turn is
    /// used up where both parts go on.
    pub fn follow(&self, turn: Turn, answer: &Answer) -> Option<Way<'a>>
        ensures { (turns : List Turn) → IsTurn self.now turn turns → follow (Some (rest_under self.now turns)) answer.now ≡ option_map (λ way. (way.note, rest_under way.rest (left_after self.now turns))) result }
    {
        let step = self.step(turn)?;
        let edge = step.edge(reply_to(answer, &step.set()))?;
        Some(Way {
            note: edge.note,
            rest: self.led(turn, edge.next),
        })
    }

    /// Where an edge of the step of this turn leads.
    fn led(&self, turn: Turn, next: Next) -> Cursor<'a>
        requires within { IsTrue (is_within self.now.plan.now.steps.items next) }
        requires apart { IsTrue (leads_apart self.now.plan.now.steps.items self.now.at turn next) }
        ensures { (turns : List Turn) → rest_under result turns ≡ led_to self.now turn next turns }
    {
        let at = match self.at {
            At::Before(_) => self.plan.entered(next),
            At::Behind(_) => At::Behind(next),
            At::Beside(new, old) => if goes_new(new, old, turn) {
                self.plan.beside(next, old)
            } else {
                self.plan.beside(new, next)
            },
        };
        Cursor {
            plan: self.plan,
            at,
        }
    }
}

/// Whether a part goes on with a step.
fn is_step(next: Next) -> bool
    ensures { result ≡ is_step next }
{
    match next {
        Next::To(_) => true,
        Next::Over(_) | Next::Both(..) => false,
    }
}

/// Whether the parts begin there.
fn is_split(next: Next) -> bool
    ensures { result ≡ is_split next }
{
    match next {
        Next::Both(..) | Next::Over(End::Split) => true,
        Next::To(_) | Next::Over(_) => false,
    }
}

/// Whether the next step is the new master's: where both parts go on, that is what the turn says.
fn goes_new(new: Next, old: Next, turn: Turn) -> bool
    ensures { result ≡ goes_new new old turn }
{
    match (new, old) {
        (Next::To(_), Next::To(_)) => turn == Turn::New,
        (Next::To(_), _) => true,
        _ => false,
    }
}

/// The end that stands there; none at a step.
fn end_behind(next: Next) -> Option<End>
    ensures { result ≡ end_behind next }
{
    match next {
        Next::To(_) => None,
        Next::Over(end) => Some(end),
        Next::Both(..) => Some(End::Split),
    }
}
