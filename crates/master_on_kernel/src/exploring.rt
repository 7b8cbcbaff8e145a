//! How a target ends whatever goes wrong, from a kernel as it is.
ghost use Rattle.std.specs.Prelude.{IfOk};
ghost use Rattle.service_state.specs.Targets.{IsTarget};
ghost use Rattle.master_on_kernel.specs.Explorations.{AreCounted};

use explorer::Unexplored;
use kernel_model::Turns;
use order_explorer::{OrderAudience, OrderSearch, Totals, explore_orders};
use std::alloc::{AllocError, Global};
use word_runner::{Body, TargetRefusal};

/// What came of the runs of a word.
#[derive(Drop)]
pub enum Explored {
    /// All of them are counted.
    All,
    /// Those are counted that the audience wanted.
    Cut,
    /// There is nothing to count: what the word comes to instead.
    Told(Body),
}

/// Which runs of a word are counted.
#[derive(Clone, Copy)]
pub struct Trials<'a> {
    /// The orders of turns by which they go, where two masters have parts of the plan.
    pub orders: &'a [Turns],
    /// Whether there are runs with pairs of events.
    pub pairs: bool,
}

/// Counts how a target ends by each order, under no event, under each event that this run meets, and under each pair where
/// these are asked for.
pub(crate) fn count_runs<A: OrderAudience>(
    alloc: Global,
    search: &OrderSearch<'_>,
    totals: &mut Totals,
    audience: &mut A,
) -> Result<Explored, AllocError>
    requires { IsTarget search.now.target.now }
    ensures { IfOk result (AreCounted search.now totals.old totals.new) }
{
    match explore_orders(alloc, search, totals, audience) {
        Ok(()) => Ok(Explored::All),
        Err(Unexplored::Enough) => Ok(Explored::Cut),
        Err(Unexplored::Enact(refusal)) => match TargetRefusal::from(refusal) {
            TargetRefusal::Memory => Err(AllocError),
            TargetRefusal::Coded(code) => Ok(Explored::Told(Body::Refused(code))),
        },
    }
}
