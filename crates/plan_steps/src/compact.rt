//! What a step asks for, in little room: an order of one worker stands in the step, a fork with descriptors is boxed, and
//! so is any other order, which may hold two paths or a crew.
ghost use Rattle.std.specs.Prelude.{◌≡◌, IfOk, IfSome};
ghost use Rattle.plan_steps.specs.Compact.{fork_order};

use crate::WorkerCall;
use listener_set::{DescriptorSet, Generation, Numbers};
use std::alloc::{AllocError, Global};
use std::marker::Model;
use vocabulary::{Call, Order};

/// A fork with the descriptors that the worker gets, without the room that a call with two paths needs.
#[derive(Clone, Copy, Debug)]
struct GroupFork {
    generation: Generation,
    number: u32,
    descriptors: DescriptorSet,
}

impl GroupFork {
    /// The order as a fork with descriptors, if it is one.
    fn of(order: &Order) -> Option<GroupFork>
        ensures { IfSome result (λ fork. fork_order fork ≡ order.now) }
    {
        match order {
            Order::Make(Call::Fork(generation, number, Some(descriptors))) => Some(GroupFork {
                generation: *generation,
                number: *number,
                descriptors: *descriptors,
            }),
            _ => None,
        }
    }

    /// The order itself.
    fn order(&self) -> Order
        ensures { result ≡ fork_order self.now }
    {
        Order::Make(Call::Fork(self.generation, self.number, Some(self.descriptors)))
    }
}

#[derive(Debug, Drop)]
enum Kept {
    Worker(WorkerCall),
    Fork(Box<GroupFork>),
    Boxed(Box<Order>),
}

/// An order. Contracts see the order itself.
#[derive(Debug, Drop)]
pub(crate) struct CompactOrder {
    kept: Kept,
}

impl Model for CompactOrder {
    ghost use Rattle.vocabulary.specs.declared.plans.Order.{Order};
    ghost use Rattle.plan_steps.specs.Compact.{order_of};

    ghost Value = { Order };

    ghost view = { λ o. order_of o.kept };
}

/// The order as a call that names a worker, if it is one.
fn worker_call(order: &Order) -> Option<WorkerCall>
    ensures { IfSome result (λ call. Order.Make call ≡ order.now) }
{
    match order {
        Order::Make(call) => WorkerCall::of(call),
        _ => None,
    }
}

impl CompactOrder {
    /// The order, kept. Only one that names no worker, or descriptors beside it, takes memory.
    pub(crate) fn new(alloc: Global, order: &Order) -> Result<CompactOrder, AllocError>
        ensures { IfOk result (λ kept. kept ≡ order.now) }
    {
        if let Some(call) = worker_call(order) {
            return Ok(CompactOrder {
                kept: Kept::Worker(call),
            });
        }
        if let Some(fork) = GroupFork::of(order) {
            return Ok(CompactOrder {
                kept: Kept::Fork(Box::new(alloc, fork)?),
            });
        }
        Ok(CompactOrder {
            kept: Kept::Boxed(Box::new(alloc, *order)?),
        })
    }

    /// The same order, kept once more.
    pub(crate) fn copy(&self, alloc: Global) -> Result<CompactOrder, AllocError>
        ensures { IfOk result (λ kept. kept ≡ self.now) }
    {
        let kept = match &self.kept {
            Kept::Worker(call) => Kept::Worker(call.copy()),
            Kept::Fork(fork) => Kept::Fork(Box::new(alloc, **fork)?),
            Kept::Boxed(order) => Kept::Boxed(Box::new(alloc, **order)?),
        };
        Ok(CompactOrder { kept })
    }

    /// The order that is kept.
    pub(crate) fn get(&self) -> Order
        ensures { result ≡ self.now }
    {
        match &self.kept {
            Kept::Worker(call) => Order::Make(call.call()),
            Kept::Fork(fork) => fork.order(),
            Kept::Boxed(order) => **order,
        }
    }
}

/// A set of numbers, of which most are empty. Contracts see the set itself.
#[derive(Debug, Drop)]
pub(crate) struct CompactSet {
    some: Option<Box<Numbers>>,
}

impl Model for CompactSet {
    ghost use Rattle.std.specs.Prelude.{ℕ, List};
    ghost use Rattle.plan_steps.specs.Compact.{set_of};

    ghost Value = { List ℕ };

    ghost view = { λ s. set_of s.some };
}

impl CompactSet {
    /// The set, kept. Only one that is not empty takes memory.
    pub(crate) fn new(alloc: Global, set: &Numbers) -> Result<CompactSet, AllocError>
        ensures { IfOk result (λ kept. kept ≡ set.now) }
    {
        if set.is_empty() {
            return Ok(CompactSet { some: None });
        }
        Ok(CompactSet {
            some: Some(Box::new(alloc, *set)?),
        })
    }

    /// The same set, kept once more.
    pub(crate) fn copy(&self, alloc: Global) -> Result<CompactSet, AllocError>
        ensures { IfOk result (λ kept. kept ≡ self.now) }
    {
        let some = match &self.some {
            Some(set) => Some(Box::new(alloc, **set)?),
            None => None,
        };
        Ok(CompactSet { some })
    }

    /// The set that is kept.
    pub(crate) fn get(&self) -> Numbers
        ensures { result ≡ self.now }
    {
        match &self.some {
            Some(set) => **set,
            None => Numbers::none(),
        }
    }
}
