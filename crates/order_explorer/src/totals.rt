//! What was found of all orders together.
ghost use Rattle.std.specs.Prelude.{◌≡◌, OnOk};
ghost use Rattle.order_explorer.specs.Totals.{shortest_with, ends_with, none_explored, least_with, most_with, IsTally, totals_with, nothing_explored};

use explorer::{Ended, Findings, Least, Most, Tally, Tried};
use std::alloc::AllocError;

/// A run: the place of its order among the orders, from 0, and what goes wrong in it.
#[derive(Clone, Copy, Debug)]
pub struct OrderedRun {
    pub order: usize,
    pub tried: Tried,
}

/// How many runs ended so, and the first of those in which fewest things went wrong.
#[derive(Clone, Copy, Debug)]
pub struct Ends {
    pub count: u64,
    pub shortest: Option<OrderedRun>,
}

/// The fewest Ready workers that an address had, and by which order.
#[derive(Clone, Copy, Debug)]
pub struct OrderedLeast {
    pub order: usize,
    pub least: Least,
}

/// The most workers that lived at once, and by which order.
#[derive(Clone, Copy, Debug)]
pub struct OrderedMost {
    pub order: usize,
    pub most: Most,
}

/// What was found of the runs of all orders.
#[derive(Clone, Copy, Debug)]
pub struct Totals {
    pub done: Ends,
    pub rolled_back: Ends,
    pub degraded_old: Ends,
    pub degraded_target: Ends,
    pub lost: Ends,
    /// The largest shortfall that a run reported.
    pub shortfall: u64,
    /// The fewest workers at an address that both services name, where there is one.
    pub least: Option<OrderedLeast>,
    /// The most workers that lived at once, where a table was passed.
    pub most: Option<OrderedMost>,
    /// How many tables the runs passed.
    pub tables: u64,
}

impl Ends {
    const fn none() -> Ends
        ensures { result ≡ none_explored }
    {
        Ends {
            count: 0,
            shortest: None,
        }
    }

    /// Adds the runs of one order.
    fn add(&mut self, order: usize, found: &Ended) -> Result<(), AllocError>
        ensures { OnOk result (self.new ≡ ends_with order found.now self.old) }
    {
        self.count = self.count.checked_add(found.count).ok_or(AllocError)?;
        self.shortest = shortest_with(self.shortest, order, found.shortest);
        Ok(())
    }
}

/// The run in which fewer things go wrong, and else the first.
fn shortest_with(
    first: Option<OrderedRun>,
    order: usize,
    found: Option<Tried>,
) -> Option<OrderedRun>
    ensures { result ≡ shortest_with first order found }
{
    match (first, found) {
        (first, None) => first,
        (None, Some(tried)) => Some(OrderedRun { order, tried }),
        (Some(first), Some(tried)) => {
            if tried.count() < first.tried.count() {
                Some(OrderedRun { order, tried })
            } else {
                Some(first)
            }
        }
    }
}

/// The fewer workers, and else the first.
fn least_with(
    first: Option<OrderedLeast>,
    order: usize,
    found: Option<Least>,
) -> Option<OrderedLeast>
    ensures { result ≡ least_with first order found }
{
    match (first, found) {
        (first, None) => first,
        (None, Some(least)) => Some(OrderedLeast { order, least }),
        (Some(first), Some(least)) => {
            if least.ready < first.least.ready {
                Some(OrderedLeast { order, least })
            } else {
                Some(first)
            }
        }
    }
}

/// The more workers, and else the first.
fn most_with(first: Option<OrderedMost>, order: usize, found: Option<Most>) -> Option<OrderedMost>
    ensures { result ≡ most_with first order found }
{
    match (first, found) {
        (first, None) => first,
        (None, Some(most)) => Some(OrderedMost { order, most }),
        (Some(first), Some(most)) => {
            if first.most.workers < most.workers {
                Some(OrderedMost { order, most })
            } else {
                Some(first)
            }
        }
    }
}

impl Totals {
    /// No run.
    pub fn new() -> Totals
        ensures { result ≡ nothing_explored }
    {
        Totals {
            done: Ends::none(),
            rolled_back: Ends::none(),
            degraded_old: Ends::none(),
            degraded_target: Ends::none(),
            lost: Ends::none(),
            shortfall: 0,
            least: None,
            most: None,
            tables: 0,
        }
    }

    /// Adds how the runs of one order ended.
    fn add_tally(&mut self, order: usize, tally: &Tally) -> Result<(), AllocError>
        ensures { OnOk result (IsTally order tally.now self.old self.new) }
    {
        self.done.add(order, &tally.done)?;
        self.rolled_back.add(order, &tally.rolled_back)?;
        self.degraded_old.add(order, &tally.degraded_old)?;
        self.degraded_target.add(order, &tally.degraded_target)?;
        self.lost.add(order, &tally.lost)?;
        self.shortfall = self.shortfall.max(tally.shortfall);
        Ok(())
    }

    /// Adds what was found of the runs of one order. Numbers beyond 2^64 would be out of memory.
    pub(crate) fn add(&mut self, order: usize, found: &Findings) -> Result<(), AllocError>
        ensures { OnOk result (self.new ≡ totals_with order found.now self.old) }
    {
        self.add_tally(order, &found.tally)?;
        self.least = least_with(self.least, order, found.least);
        self.most = most_with(self.most, order, found.most);
        self.tables = self.tables.checked_add(found.tables).ok_or(AllocError)?;
        Ok(())
    }
}
