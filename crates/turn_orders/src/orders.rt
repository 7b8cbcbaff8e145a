//! All lists of so many turns of the old master and so many of the new one.
ghost use Rattle.std.specs.Prelude.{◌≡◌, ◌≤◌, ◌<◌, ◌+◌, ◌++◌, ◌∷◌, ◌↔◌, [], None, length, IfOk, IfSome, OnOk, IsErrOf};
ghost use Rattle.turn_orders.specs.Orders.{orders, begun_with, AreAllOrders};

use plan_turns::Turns;
use std::alloc::{AllocError, Global};
use vocabulary::Turn;

/// How many orders there are at most.
pub const MOST_ORDERS: usize = 5_000;

/// Why the orders are not listed.
#[derive(Clone, Copy, Debug)]
pub enum OrdersRefusal {
    /// There are more than are allowed.
    TooMany,
    /// Memory was refused.
    Memory,
}

impl From<AllocError> for OrdersRefusal {
    ghost use Rattle.turn_orders.specs.declared.orders.OrdersRefusal.TheVariants.{Memory};

    ghost from_gives = { λ _ e. e ≡ Memory };

    fn from(_error: AllocError) -> OrdersRefusal {
        OrdersRefusal::Memory
    }
}

/// Takes one turn more.
fn take_turn(turns: &mut Turns, turn: Turn) -> Result<(), AllocError>
    ensures { OnOk result (turns.new ≡ turns.old ++ turn ∷ []) }
{
    turns.add(turn)
}

/// These turns, as a list of their own.
fn turns_from(alloc: Global, turns: &[Turn]) -> Result<Turns, AllocError>
    ensures { IfOk result (λ copy. copy ≡ turns.now) }
{
    let mut copy = Turns::new(alloc);
    for turn in turns {
        take_turn(&mut copy, *turn)?;
    }
    Ok(copy)
}

/// These turns, and then this one.
fn longer(alloc: Global, turns: &[Turn], turn: Turn) -> Result<Vec<Turn>, AllocError>
    ensures { IfOk result (λ list. list.items ≡ turns.now ++ turn ∷ []) }
{
    let mut list = Vec::new(alloc);
    list.extend_from_slice(turns)?;
    list.push(turn).map_err(AllocError::from)?;
    Ok(list)
}

/// What is left of this number once all orders of so many turns of both masters are taken from it; none where they are more.
#[tactic(auto, using(crate::proofs::Counting::no_olds, crate::proofs::Counting::no_news, crate::proofs::Counting::both_together))]
fn left_after(olds: u32, news: u32, number: usize) -> Option<usize>
    ensures some { IfSome result (λ left. left + length (orders olds news) ≡ number) }
    ensures none { result ≡ None → number < length (orders olds news) }
{
    if olds == 0 {
        return number.checked_sub(1);
    }
    if news == 0 {
        return number.checked_sub(1);
    }
    let left = left_after(olds, news - 1, number)?;
    left_after(olds - 1, news, left)
}

/// Adds one order.
fn add_order(alloc: Global, turns: &[Turn], list: &mut Vec<Turns>) -> Result<(), AllocError>
    ensures ok { OnOk result (list.new.items ≡ list.old.items ++ turns.now ∷ []) }
{
    let order = turns_from(alloc, turns)?;
    list.push(order).map_err(AllocError::from)
}

/// Adds each order that begins so, and goes on with so many turns of the old master and of the new one.
#[tactic(auto, using(crate::proofs::Listing::none_left, crate::proofs::Listing::old_alone, crate::proofs::Listing::new_alone, crate::proofs::Listing::both_go_on))]
fn add_orders(
    alloc: Global,
    begun: &[Turn],
    olds: u32,
    news: u32,
    list: &mut Vec<Turns>,
) -> Result<(), AllocError>
    ensures ok { OnOk result (list.new.items ≡ list.old.items ++ begun_with begun.now (orders olds news)) }
{
    if olds == 0 && news == 0 {
        return add_order(alloc, begun, list);
    }
    if news == 0 {
        let first = longer(alloc, begun, Turn::Old)?;
        return add_orders(alloc, &first, olds - 1, 0, list);
    }
    let first = longer(alloc, begun, Turn::New)?;
    if olds == 0 {
        return add_orders(alloc, &first, 0, news - 1, list);
    }
    add_orders(alloc, &first, olds, news - 1, list)?;
    let second = longer(alloc, begun, Turn::Old)?;
    add_orders(alloc, &second, olds - 1, news, list)
}

/// All orders of so many turns of the old master and so many of the new one, each once; those first in which the new one goes
/// on. They are refused where there are more than `MOST_ORDERS`, which is counted before any is listed.
#[tactic(auto, using(crate::proofs::All::all_orders, crate::proofs::Listing::none_begun))]
pub fn orders_of(alloc: Global, olds: u32, news: u32) -> Result<Vec<Turns>, OrdersRefusal>
    ensures orders { IfOk result (λ list. list.items ≡ orders olds news) }
    ensures all { IfOk result (λ list. AreAllOrders olds news list.items) }
    ensures few { IfOk result (λ list. length list.items ≤ 5000) }
    ensures many { IsErrOf result OrdersRefusal.TooMany ↔ (5000 < length (orders olds news)) }
{
    if left_after(olds, news, MOST_ORDERS).is_none() {
        return Err(OrdersRefusal::TooMany);
    }
    let mut list = Vec::new(alloc);
    add_orders(alloc, &[], olds, news, &mut list)?;
    Ok(list)
}
