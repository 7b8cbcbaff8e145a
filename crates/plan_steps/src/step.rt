//! A step of a plan, with its edges.
ghost use Rattle.std.specs.Prelude.{◌≡◌, IfOk};
ghost use Rattle.plan_steps.specs.declared.step.Next.TheVariants.{To, Over};
ghost use Rattle.plan_steps.specs.Steps.{edge_for, IsEdge, IsStep};

use crate::compact::{CompactOrder, CompactSet};
use listener_set::Numbers;
use std::alloc::{AllocError, Global};
use vocabulary::{Actor, End, Order, PidNote, Reply};

/// The place of a step: in a draft counted from 0, in a plan from 1.
#[derive(Clone, Copy, Debug, PartialEq, Eq)]
pub struct Place(pub u32);

/// Where an edge leads.
#[derive(Clone, Copy, Debug, PartialEq, Eq)]
pub enum Next {
    To(Place),
    Over(End),
    /// To the first step of the new master's part and that of the old one's.
    Both(Place, Place),
}

/// What follows some replies to a step.
#[derive(Clone, Copy, Debug)]
pub struct PlanEdge {
    pub replies: &'static [Reply],
    /// Where the pid file stands from then on, if that changes.
    pub note: Option<PidNote>,
    pub next: Next,
}

impl PlanEdge {
    /// An edge that leaves the pid file where it is.
    pub fn new(replies: &'static [Reply], next: Next) -> PlanEdge
        ensures { IsEdge result replies.now next }
    {
        PlanEdge {
            replies,
            note: None,
            next,
        }
    }

    /// An edge to a step, which leaves the pid file where it is.
    pub fn to(replies: &'static [Reply], place: Place) -> PlanEdge
        ensures { IsEdge result replies.now (To place) }
    {
        PlanEdge::new(replies, Next::To(place))
    }

    /// An edge to an end, which leaves the pid file where it is.
    pub fn over(replies: &'static [Reply], end: End) -> PlanEdge
        ensures { IsEdge result replies.now (Over end) }
    {
        PlanEdge::new(replies, Next::Over(end))
    }
}

/// One call of one master, and what follows each reply to it.
#[derive(Debug, Drop)]
pub struct Step {
    /// The master that makes the call.
    pub by: Actor,
    pub(crate) order: CompactOrder,
    /// The numbers that a census must contain to be full.
    pub(crate) set: CompactSet,
    /// The first edge that lists a reply is taken.
    pub edges: Vec<PlanEdge>,
}

impl Step {
    /// A step of these parts, which takes memory for all that is not one worker's call.
    pub fn new(
        alloc: Global,
        by: Actor,
        order: &Order,
        set: &Numbers,
        edges: &[PlanEdge],
    ) -> Result<Step, AllocError>
        ensures { IfOk result (λ step. IsStep step by order.now set.now edges.now) }
    {
        let edges = Vec::from_slice(alloc, edges)?;
        Ok(Step {
            by,
            order: CompactOrder::new(alloc, order)?,
            set: CompactSet::new(alloc, set)?,
            edges,
        })
    }

    /// What it asks for.
    pub fn order(&self) -> Order
        ensures { result ≡ self.now.order }
    {
        self.order.get()
    }

    /// The numbers that a census must contain to be full.
    pub fn set(&self) -> Numbers
        ensures { result ≡ self.now.set }
    {
        self.set.get()
    }

    /// The edge that a reply takes.
    pub fn edge(&self, reply: Reply) -> Option<PlanEdge>
        ensures { result ≡ edge_for self.now.edges.items reply }
    {
        self.edges
            .iter()
            .copied()
            .find(|edge| edge.replies.contains(&reply))
    }
}
