//! The last census of each master, which names the workers of a settle.
ghost use Rattle.std.specs.Prelude.{◌≡◌, []};
ghost use Rattle.definitions.specs.Run.{call_of};
ghost use Rattle.call_laws.specs.Pieces as pieces;
ghost use Rattle.definitions.specs.Run.{ready_after, lacked_by, lacked_after};
ghost use Rattle.call_laws.specs.Pieces.{lacked_last};
ghost use Rattle.definitions.specs.Run as run;
ghost use Rattle.rollback_plan.specs.Bounds.{newest_of, lacked_in};

use listener_set::Numbers;
use plan_steps::{Step, fork_of};
use vocabulary::{Actor, Answer, Call, Lack, Order};

/// The last census, and what the last census of each master lacked of its step's set. A plan has
/// two masters at most; of more, those are kept that counted last.
#[derive(Clone, Copy, Debug)]
pub struct Bound {
    ready: Numbers,
    newest: Option<Lack>,
    older: Option<Lack>,
}

impl Bound {
    /// Before any census.
    pub fn new() -> Bound
        ensures ready { result.ready ≡ [] }
        ensures lacked { lacked_in result ≡ [] }
    {
        Bound {
            ready: Numbers::none(),
            newest: None,
            older: None,
        }
    }

    /// Keeps the answer to a step, if it is a census.
    pub fn take(&mut self, step: &Step, answer: &Answer)
        ensures ready { self.new.ready ≡ ready_after answer.now self.old.ready }
        ensures lacked { lacked_in self.new ≡ lacked_after step.now.by step.now.set answer.now (lacked_in self.old) }
    {
        if let Answer::Counted(counted) = answer {
            self.ready = *counted;
            self.older = self.beside(step.by);
            self.newest = Some(Lack {
                by: step.by,
                numbers: step.set().minus(counted),
            });
        }
    }

    /// The newest census of another master.
    fn beside(&self, by: Actor) -> Option<Lack>
        ensures { newest_of result [] ≡ run.newest_of_others by (lacked_in self.now) }
    {
        of_another(self.newest, by).or(of_another(self.older, by))
    }

    /// The call of a step. Where the order leaves its worker open, that is the lowest number that
    /// the last census of the step's master lacked, and 0 where that lacked none.
    pub fn call(&self, step: &Step) -> Call
        ensures { result ≡ call_of step.now.order (lacked_by step.now.by (lacked_in self.now)) }
    {
        match step.order() {
            Order::Make(call) => call,
            Order::ForkLacking(crew) => fork_of(&crew, self.lowest(step.by)),
            Order::AwaitLacking(generation) => Call::AwaitReady(generation, self.lowest(step.by)),
            Order::KillLacking(generation) => Call::Kill(generation, self.lowest(step.by)),
        }
    }

    /// The lowest number that the last census of this master lacked.
    fn lowest(&self, by: Actor) -> u32
        ensures { result ≡ pieces.lowest (lacked_by by (lacked_in self.now)) }
    {
        self.lacked_by(by).lowest().unwrap_or(0)
    }

    /// The numbers that the last census of this master lacked.
    fn lacked_by(&self, by: Actor) -> Numbers
        ensures { result ≡ lacked_by by (lacked_in self.now) }
    {
        match (self.newest, self.older) {
            (Some(lack), _) if lack.by == by => lack.numbers,
            (_, Some(lack)) if lack.by == by => lack.numbers,
            _ => Numbers::none(),
        }
    }

    /// The last census; empty before any.
    pub fn counted(&self) -> Numbers
        ensures { result ≡ self.now.ready }
    {
        self.ready
    }

    /// The numbers that the last census lacked, whichever master's it was.
    pub fn lacking(&self) -> Numbers
        ensures { result ≡ lacked_last (lacked_in self.now) }
    {
        match self.newest.or(self.older) {
            Some(lack) => lack.numbers,
            None => Numbers::none(),
        }
    }
}

/// What a census lacked, unless it is this master's.
fn of_another(lack: Option<Lack>, by: Actor) -> Option<Lack>
    ensures { newest_of result [] ≡ run.newest_of_others by (newest_of lack []) }
{
    match lack {
        Some(other) if other.by != by => Some(other),
        _ => None,
    }
}
