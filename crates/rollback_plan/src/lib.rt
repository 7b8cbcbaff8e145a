//! Plans: numbered steps whose edges say what follows each reply, built from their ends up.
//!
//! A plan stands for the tree that it unfolds to, so steps that are shared cost nothing in what
//! is said of it. A `Draft` builds one, a `Cursor` walks it, and a `Bound` names the workers that
//! only the last census can name.
#![tactic(auto)]

mod bound;
mod cursor;
mod draft;
mod finishing;
mod mending;
mod plan;
mod settling;

pub use bound::Bound;
pub use cursor::Cursor;
pub use draft::{Draft, DraftRefusal, MOST_STEPS};
pub use plan::Plan;
pub use plan_steps::{Batch, Errand, Next, Parts, Place, PlanEdge, Step, WorkerCall};
pub use settling::{Undone, WaysBack};
