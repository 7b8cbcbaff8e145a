//! Which orders of turns a target is explored by.
ghost use Rattle.std.specs.Prelude.{◌≡◌, ◌∷◌, [], IfOk};
ghost use Rattle.service_state.specs.Targets.{IsTarget};
ghost use Rattle.order_explorer.specs.Choosing.{olds_in, news_in, most_olds, AreOrdersOf, IsChosen};

use plan_executor::{EnactRefusal, plan_of};
use plan_steps::Parts;
use plan_turns::Turns;
use service_state::Record;
use std::alloc::{AllocError, Global};
use turn_orders::{OrdersRefusal, orders_of};
use vocabulary::Target;

/// All orders of so many calls of the old master's part and so many of the new one's.
#[derive(Drop)]
pub struct ChosenOrders {
    pub olds: u32,
    pub news: u32,
    pub lists: Vec<Turns>,
}

impl ChosenOrders {
    /// These turns alone.
    pub fn only(alloc: Global, turns: Turns) -> Result<ChosenOrders, AllocError>
        ensures { IfOk result (λ chosen. chosen.lists.items ≡ turns ∷ []) }
    {
        let mut lists = Vec::new(alloc);
        lists.push(turns).map_err(AllocError::from)?;
        Ok(ChosenOrders {
            olds: 0,
            news: 0,
            lists,
        })
    }
}

/// How many steps the part of the new master has, which are one after another.
fn news_in(parts: Option<Parts>) -> u32
    ensures { result ≡ news_in parts }
{
    match parts {
        Some(parts) => parts.old.0.saturating_sub(parts.new.0),
        None => 0,
    }
}

/// How many steps the part of the old master has.
fn olds_in(parts: Option<Parts>) -> u32
    ensures { result ≡ olds_in parts }
{
    match parts {
        Some(parts) => parts.ready.0.min(parts.back.0).saturating_sub(parts.old.0),
        None => 0,
    }
}

/// How many calls the old master makes in its part at most, where a run has one event, or two.
fn most_olds(pairs: bool, parts: Option<Parts>) -> u32
    ensures { result ≡ most_olds pairs parts }
{
    let most = if pairs { 8 } else { 4 };
    olds_in(parts).min(most)
}

/// All orders of these parts.
fn orders_of_parts(
    alloc: Global,
    pairs: bool,
    parts: Option<Parts>,
) -> Result<ChosenOrders, OrdersRefusal>
    ensures { IfOk result (AreOrdersOf pairs parts) }
{
    let (olds, news) = (most_olds(pairs, parts), news_in(parts));
    let lists = orders_of(alloc, olds, news)?;
    Ok(ChosenOrders { olds, news, lists })
}

/// All orders of the parts of a target's plan. A plan without parts, and a target without a plan, have the one without turns.
pub fn choose_orders(
    alloc: Global,
    state: &Record,
    target: &Target,
    pairs: bool,
) -> Result<ChosenOrders, OrdersRefusal>
    requires { IsTarget target.now }
    ensures { IfOk result (IsChosen state.now target.now pairs) }
{
    match plan_of(alloc, state, target) {
        Ok(plan) => orders_of_parts(alloc, pairs, plan.parts()),
        Err(EnactRefusal::Memory) => Err(OrdersRefusal::Memory),
        Err(_) => orders_of_parts(alloc, pairs, None),
    }
}
