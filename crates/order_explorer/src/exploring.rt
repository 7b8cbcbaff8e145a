//! A target, explored by one order after another.
ghost use Rattle.std.specs.Prelude.{◌≡◌, ◌⊎◌, OnOk, IsErrOf};
ghost use Rattle.service_state.specs.Targets.{IsTarget};
ghost use Rattle.plan_executor.specs.declared.enactment.EnactRefusal.{EnactRefusal as Refusal};
ghost use Rattle.order_explorer.specs.Exploring.{IsSearched, AreSearched, IsHopelessly, IsNeverRefused};

use crate::totals::Totals;
use explorer::{Audience, Findings, Search, Unexplored, explore};
use kernel_model::Kernel;
use plan_executor::EnactRefusal;
use plan_turns::Turns;
use service_state::Record;
use std::alloc::Global;
use vocabulary::Target;

/// An audience that hears of each order before its runs.
pub trait OrderAudience: Audience {
    /// Hears the place of the order among the orders, from 0.
    fn begin_order(&mut self, order: usize);
}

/// What is explored: the runs of a target, from a kernel and what its master knows of itself, by each of these orders, and with
/// pairs of events where these are asked for.
#[derive(Clone, Copy)]
pub struct OrderSearch<'a> {
    pub kernel: &'a Kernel,
    pub state: &'a Record,
    pub target: &'a Target,
    pub orders: &'a [Turns],
    pub pairs: bool,
}

/// Explores a target by one order. What is found is added to the totals, also of runs that were ended.
fn explore_order<A: OrderAudience>(
    alloc: Global,
    search: &OrderSearch<'_>,
    order: usize,
    turns: &Turns,
    totals: &mut Totals,
    audience: &mut A,
) -> Result<(), Unexplored>
    requires { IsTarget search.now.target.now }
    ensures added { OnOk result (IsSearched search.now order turns.now totals.old totals.new) }
    ensures refused { (why : Refusal) → IsErrOf result (Unexplored.Enact why) → (why ≡ EnactRefusal.Memory) ⊎ IsHopelessly search.now why }
    ensures enough { IsErrOf result Unexplored.Enough → IsNeverRefused search.now }
{
    audience.begin_order(order);
    let mut found = Findings::new(alloc);
    let one = Search {
        kernel: search.kernel,
        state: search.state,
        target: search.target,
        turns,
        pairs: search.pairs,
    };
    let explored = explore(alloc, &one, &mut found, audience);
    totals.add(order, &found)?;
    explored
}

/// Explores a target by each of these orders, one after another: counts the runs that `explore` counts by these turns, and adds
/// up what is found. A run that goes the same way by two orders is counted for each.
///
/// The audience hears of each order and run, and may end them. What was found until then stays. A target is refused where
/// `explore` refuses it.
pub fn explore_orders<A: OrderAudience>(
    alloc: Global,
    search: &OrderSearch<'_>,
    totals: &mut Totals,
    audience: &mut A,
) -> Result<(), Unexplored>
    requires { IsTarget search.now.target.now }
    ensures added { OnOk result (AreSearched search.now totals.old totals.new) }
    ensures refused { (why : Refusal) → IsErrOf result (Unexplored.Enact why) → (why ≡ EnactRefusal.Memory) ⊎ IsHopelessly search.now why }
    ensures enough { IsErrOf result Unexplored.Enough → IsNeverRefused search.now }
{
    let orders = search.orders;
    for (order, turns) in orders.iter().enumerate() {
        explore_order(alloc, search, order, turns, totals, audience)?;
    }
    Ok(())
}
