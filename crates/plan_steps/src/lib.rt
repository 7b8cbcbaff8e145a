//! The steps of plans: what each asks for and what follows each reply, and how a plan numbers them.
//!
//! A step stands for the tree that its edges unfold to. In a draft edges lead back, to steps made before; in a plan they lead on,
//! to steps with higher numbers.
#![tactic(auto)]

mod batch;
mod compact;
mod in_parts;
mod layers;
mod numbered;
mod numbering;
mod ordering;
mod parts;
mod step;
mod stretches;
mod walking;
mod worker_call;

pub use batch::{Batch, Errand, fork_of};
pub use in_parts::{PartedSteps, number_in_parts};
pub use numbered::{NumberedSteps, number_steps};
pub use parts::Parts;
pub use step::{Next, Place, PlanEdge, Step};
pub use worker_call::WorkerCall;
