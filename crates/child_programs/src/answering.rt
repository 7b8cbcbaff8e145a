//! Who answers the calls of a new master, and its ticks.
ghost use Rattle.std.specs.Prelude.{◌≡◌, IsTrue};
ghost use Rattle.call_replies.specs.Replies.{is_listed};
ghost use Rattle.child_programs.specs.Requests.{refused};

use child_edge::Edge;
use child_family::Family;
use listener_set::Numbers;
use plan_walk::Calls;
use std::alloc::AllocError;
use vocabulary::{Actor, Answer, Call};

/// Answers the calls and the ticks of a new master, and says what an answer stands for.
pub trait Answers {
    ghost use Rattle.std.specs.Prelude.{ℕ, List, IfOk, IsTrue};
    ghost use Rattle.definitions.specs.Calls.{Call as Called, Answer as Answered};
    ghost use Rattle.call_replies.specs.Replies.{is_listed};

    /// A call for a master, with the text of a handover, led from one state to another and had this answer.
    ghost answers: { Self → ℕ → Called → List ℕ → Self → Answered → Type 0 };

    /// A tick led from one state to another, and these numbers beat.
    ghost beats: { Self → ℕ → Self → List ℕ → Type 0 };

    /// Makes a call for a master, by its image; `text` is the handover for the master that it is to start. The only
    /// refusal is want of memory.
    fn answer(&mut self, by: Actor, call: &Call, text: &[u8]) -> Result<Answer, AllocError>
        ensures answers { IfOk result (λ a. answers self.old by call.now text.now self.new a) }
        ensures listed { IfOk result (λ a. IsTrue (is_listed call.now a)) };

    /// Tells the workers the moment, and gives the numbers of those that beat then.
    fn tick(&mut self, now: u64) -> Numbers
        ensures { beats self.old now self.new result };
}

impl<F: Family + Drop> Answers for Edge<F> {
    ghost use Rattle.child_programs.specs.Adopting.{AnswersByEdge, BeatsByEdge};

    ghost answers = { AnswersByEdge ⟦<F as Family>⟧ };

    ghost beats = { BeatsByEdge ⟦<F as Family>⟧ };

    fn answer(&mut self, by: Actor, call: &Call, text: &[u8]) -> Result<Answer, AllocError> {
        self.reserve(1, text)?;
        Ok(self.make(by, call))
    }

    fn tick(&mut self, now: u64) -> Numbers {
        self.tick_reigning(now)
    }
}

/// Answers for a master whose handover was faulty: it took nothing over, and has no children.
#[derive(Clone, Copy, Debug)]
pub struct Refusing;

fn refused(call: &Call) -> Answer
    ensures answer { result ≡ refused call.now }
    ensures listed { IsTrue (is_listed call.now result) }
{
    match call {
        Call::Adopt => Answer::Refused,
        _ => Answer::MasterGone,
    }
}

impl Answers for Refusing {
    ghost use Rattle.child_programs.specs.Adopting.{AnswersNothing, BeatsNobody};

    ghost answers = { AnswersNothing };

    ghost beats = { BeatsNobody };

    fn answer(&mut self, _by: Actor, call: &Call, _text: &[u8]) -> Result<Answer, AllocError> {
        Ok(refused(call))
    }

    fn tick(&mut self, _now: u64) -> Numbers {
        Numbers::none()
    }
}
