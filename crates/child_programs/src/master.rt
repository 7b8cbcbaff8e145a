//! A new master that makes the calls that it is told.
ghost use Rattle.std.specs.Prelude.{◌≡◌, ◌<◌, ℕ, IfOk, List, OnOk, [], None, codes, length};
ghost use Rattle.call_text.specs.CallText.{answer_text};
ghost use Rattle.definitions.specs.Calls.{Answer as Answered};
ghost use Rattle.vocabulary.specs.declared.calls.Answer.TheVariants.{Counted};
ghost use Rattle.child_programs.specs.Requests.{request_of, part_of};
ghost use Rattle.child_programs.specs.Response.{says, response_of, HasRoom};
ghost use Rattle.child_programs.specs.Master.{waits_of, called, requested, handed, asked, IsHeard};

use crate::answering::Answers;
use crate::handover_lines::{HandoverLines, Part};
use crate::hearing::{Hears, Reaction};
use crate::lines::write_text;
use crate::requests::{CallLine, MasterRequest, read_request};
use call_text::write_answer;
use plain_text::Line;
use std::alloc::AllocError;
use vocabulary::{Actor, Answer, Call};

/// A call that starts a master.
#[derive(Clone, Copy, Debug)]
pub struct Spawn {
    /// Who starts it.
    pub by: Actor,
    /// The image that it runs.
    pub image: u32,
}

/// A new master: who answers its calls, and what it waits for.
#[derive(Drop)]
pub struct NewMaster<A: Answers + Drop> {
    answers: A,
    /// The call that waits for its handover.
    waiting: Option<Spawn>,
    /// The handover of the master that it starts.
    handover: HandoverLines,
}

/// Has a call made, and makes a line of its answer.
fn make<A: Answers>(
    answers: &mut A,
    by: Actor,
    call: &Call,
    text: &[u8],
    answer: &mut Line,
) -> Result<Reaction, AllocError>
    ensures response { IfOk result (λ step. (a : Answered) × (response_of step answer.new ≡ says (answer_text a)) × A.answers answers.old by call.now text.now answers.new a) }
    ensures room { OnOk result (length answer.new < 4096) }
{
    let made = answers.answer(by, call, text)?;
    write_answer(&made, answer);
    Ok(Reaction::Says)
}

/// Ticks the workers, and makes a line of the numbers that beat.
fn tick<A: Answers>(answers: &mut A, now: u64, answer: &mut Line) -> Reaction
    ensures response { (numbers : List ℕ) × (response_of result answer.new ≡ says (answer_text (Counted numbers))) × A.beats answers.old now answers.new numbers }
    ensures room { length answer.new < 4096 }
{
    let numbers = answers.tick(now);
    write_answer(&Answer::Counted(numbers), answer);
    Reaction::Says
}

impl<A: Answers + Drop> NewMaster<A> {
    /// A new master that was told nothing since its own handover. The room of `handover` serves for the next one.
    pub fn new(answers: A, handover: HandoverLines) -> NewMaster<A>
        ensures answers { result.answers ≡ answers }
        ensures waiting { result.waiting ≡ None }
    {
        NewMaster {
            answers,
            waiting: None,
            handover,
        }
    }

    /// Who answers its calls.
    pub fn into_answers(self) -> A
        ensures { result ≡ self.answers }
    {
        self.answers
    }

    /// Has a call made; one that starts a master waits for its handover.
    fn take_call(&mut self, made: CallLine, answer: &mut Line) -> Result<Reaction, AllocError>
        requires { self.old.waiting ≡ None }
        ensures heard { IfOk result (λ step. IsHeard A.answers A.beats (called made.by made.call).0 self.old.answers self.new.answers (response_of step answer.new)) }
        ensures waits { OnOk result (waits_of self.new.waiting self.new.handover ≡ (called made.by made.call).1) }
        ensures room { IfOk result (λ step. HasRoom (response_of step answer.new)) }
    {
        if let Call::SpawnMaster(image) = made.call {
            self.handover.clear();
            self.waiting = Some(Spawn { by: made.by, image });
            return Ok(Reaction::Quiet);
        }
        make(&mut self.answers, made.by, &made.call, &[], answer)
    }

    /// Hears a line where it waits for one that asks something.
    fn hear_request(&mut self, line: &[u8], answer: &mut Line) -> Result<Reaction, AllocError>
        requires { self.old.waiting ≡ None }
        ensures heard { IfOk result (λ step. IsHeard A.answers A.beats (requested (request_of line.now)).0 self.old.answers self.new.answers (response_of step answer.new)) }
        ensures waits { OnOk result (waits_of self.new.waiting self.new.handover ≡ (requested (request_of line.now)).1) }
        ensures room { IfOk result (λ step. HasRoom (response_of step answer.new)) }
    {
        match read_request(line) {
            None => Ok(Reaction::Fails),
            Some(MasterRequest::IsAlive) => {
                write_text(answer, b"alive");
                Ok(Reaction::Says)
            }
            Some(MasterRequest::Tick(now)) => Ok(tick(&mut self.answers, now, answer)),
            Some(MasterRequest::Make(made)) => self.take_call(made, answer),
        }
    }

    /// Hears a line where it waits for the handover of a master that it starts.
    fn hear_handover(
        &mut self,
        spawn: Spawn,
        line: &[u8],
        answer: &mut Line,
    ) -> Result<Reaction, AllocError>
        requires { self.old.waiting ≡ Some spawn }
        ensures heard { IfOk result (λ step. IsHeard A.answers A.beats (handed spawn.by spawn.image self.old.handover line.now (part_of line.now)).0 self.old.answers self.new.answers (response_of step answer.new)) }
        ensures waits { OnOk result (waits_of self.new.waiting self.new.handover ≡ (handed spawn.by spawn.image self.old.handover line.now (part_of line.now)).1) }
        ensures room { IfOk result (λ step. HasRoom (response_of step answer.new)) }
    {
        match self.handover.take(line)? {
            Part::More => Ok(Reaction::Quiet),
            Part::Other => Ok(Reaction::Fails),
            Part::Whole => {
                self.waiting = None;
                let call = Call::SpawnMaster(spawn.image);
                make(
                    &mut self.answers,
                    spawn.by,
                    &call,
                    self.handover.text(),
                    answer,
                )
            }
        }
    }

    /// Hears a line, without its newline. To `alive` it says `alive`. At `tick NOW` the workers are told the moment, and it
    /// says `counted` and the numbers of those that beat. A call is made by who answers, and its answer is said; one that
    /// starts a master waits for the lines of the handover that follow it, up to the line `end`, and is made then. At any
    /// other line it fails, and at a line that asks for an answer where a handover isn't at its end. The only refusal is
    /// want of memory.
    pub fn hear(&mut self, line: &[u8], answer: &mut Line) -> Result<Reaction, AllocError>
        ensures heard { IfOk result (λ step. IsHeard A.answers A.beats (asked (waits_of self.old.waiting self.old.handover) line.now).0 self.old.answers self.new.answers (response_of step answer.new)) }
        ensures waits { OnOk result (waits_of self.new.waiting self.new.handover ≡ (asked (waits_of self.old.waiting self.old.handover) line.now).1) }
        ensures room { IfOk result (λ step. HasRoom (response_of step answer.new)) }
    {
        match self.waiting {
            None => self.hear_request(line, answer),
            Some(spawn) => self.hear_handover(spawn, line, answer),
        }
    }
}

/// Want of memory ends it with status 1.
impl<A: Answers + Drop> Hears for NewMaster<A> {
    ghost use Rattle.child_programs.specs.Adopting.{HearsBy};

    ghost hears = { HearsBy A.answers A.beats };

    fn hear(&mut self, line: &[u8], answer: &mut Line) -> Reaction {
        match self.hear(line, answer) {
            Ok(step) => step,
            Err(_) => Reaction::Fails,
        }
    }
}
