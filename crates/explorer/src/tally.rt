//! Runs, counted by their ends.
ghost use Rattle.std.specs.Prelude.{◌≡◌, OnOk, Some};
ghost use Rattle.explorer.specs.Tallies.{shortest_of, one_more, none_ended, nothing_counted, counted};

use crate::events::Tried;
use std::alloc::AllocError;
use vocabulary::{Outcome, Side};

/// How many runs ended so, and the first of those in which fewest things went wrong.
#[derive(Clone, Copy, Debug)]
pub struct Ended {
    pub count: u64,
    pub shortest: Option<Tried>,
}

/// How many runs ended how, and the largest shortfall that one of them reported.
#[derive(Clone, Copy, Debug)]
pub struct Tally {
    pub done: Ended,
    pub rolled_back: Ended,
    pub degraded_old: Ended,
    pub degraded_target: Ended,
    pub lost: Ended,
    pub shortfall: u64,
}

impl Ended {
    const fn none() -> Ended
        ensures { result ≡ none_ended }
    {
        Ended {
            count: 0,
            shortest: None,
        }
    }

    fn add(&mut self, tried: &Tried) -> Result<(), AllocError>
        ensures { OnOk result (self.new ≡ one_more tried.now self.old) }
    {
        self.count = self.count.checked_add(1).ok_or(AllocError)?;
        self.shortest = Some(shortest_of(self.shortest, *tried));
        Ok(())
    }
}

fn shortest_of(first: Option<Tried>, tried: Tried) -> Tried
    ensures { Some result ≡ shortest_of first tried }
{
    match first {
        Some(first) if tried.count() >= first.count() => first,
        _ => tried,
    }
}

impl Tally {
    /// No run.
    pub fn new() -> Tally
        ensures { result ≡ nothing_counted }
    {
        Tally {
            done: Ended::none(),
            rolled_back: Ended::none(),
            degraded_old: Ended::none(),
            degraded_target: Ended::none(),
            lost: Ended::none(),
            shortfall: 0,
        }
    }

    /// Counts one run more. A tally of 2^64 runs that ended alike would be out of memory.
    pub fn count(&mut self, tried: &Tried, outcome: &Outcome) -> Result<(), AllocError>
        ensures { OnOk result (self.new ≡ counted tried.now outcome.now self.old) }
    {
        match outcome {
            Outcome::Done => self.done.add(tried),
            Outcome::RolledBack => self.rolled_back.add(tried),
            Outcome::Degraded { side, shortfalls } => {
                self.shortfall = self.shortfall.max(shortfalls.total());
                match side {
                    Side::Old => self.degraded_old.add(tried),
                    Side::Target => self.degraded_target.add(tried),
                }
            }
            Outcome::Lost => self.lost.add(tried),
        }
    }
}
