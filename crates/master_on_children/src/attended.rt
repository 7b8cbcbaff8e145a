//! The calls of a plan whose questions an operator answers.
ghost use Rattle.std.specs.Prelude.{◌≡◌, ◌⊎◌};
ghost use Rattle.vocabulary.specs.declared.calls.Answer.TheVariants.{Counted, Go, Back};
ghost use Rattle.child_family.specs.Talk.{Held};
ghost use Rattle.child_edge.specs.State.{state_of};
ghost use Rattle.master_on_children.specs.Questions.{question_of};
ghost use Rattle.master_on_children.specs.Inbox.{IsNextLine, IsAnswered};

use crate::SupervisorFault;
use crate::inbox::Inbox;
use child_edge::Edge;
use child_family::Family;
use control_words::{Word, WordRefusal};
use listener_set::Numbers;
use log::{Log, info};
use plan_walk::Calls;
use std::alloc::AllocError;
use std::io::Read;
use vocabulary::{Actor, Answer, Call};

/// The edge to a master's children, with an operator who answers the questions of a plan: what they type, and the log
/// that tells them that they are asked.
#[derive(Drop)]
pub struct Attended<F: Family + Drop, I: Read + Drop, L: Log + Drop> {
    pub(crate) edge: Edge<F>,
    pub(crate) inbox: Inbox<I>,
    pub(crate) log: L,
}

impl<F: Family + Drop, I: Read + Drop, L: Log + Drop> Attended<F, I, L> {
    /// Asks the operator a question, and waits for the answer.
    fn ask(&mut self, question: u32) -> Answer
        ensures answered { IsAnswered I.remaining self.old.inbox result self.new.inbox }
        ensures one { (result ≡ Go) ⊎ (result ≡ Back) }
        ensures others { self.new ≡ record self.old { inbox = self.new.inbox } }
    {
        info!(&self.log; target: "prefork", "asks {question}: WINCH or QUIT goes on, HUP goes back");
        self.inbox.answer()
    }
}

/// The question that a call is, if it is one.
fn question_of(call: &Call) -> Option<u32>
    ensures { result ≡ question_of call.now }
{
    match call {
        Call::Ask(question) => Some(*question),
        _ => None,
    }
}

/// A question is answered by the operator, whichever master asks it. Every other call is made on the edge.
impl<F: Family + Drop, I: Read + Drop, L: Log + Drop> Calls for Attended<F, I, L> {
    ghost use Rattle.master_on_children.specs.Attended.{AreMade, AreMade-none};

    ghost room = { λ w. w.edge.room };

    ghost follows = { AreMade I.remaining };

    ghost follows_none = { AreMade-none I.remaining };

    fn room(&self) -> u32 {
        self.edge.room()
    }

    fn make(&mut self, by: Actor, call: &Call) -> Answer {
        match question_of(call) {
            Some(question) => self.ask(question),
            None => self.edge.make(by, call),
        }
    }
}
