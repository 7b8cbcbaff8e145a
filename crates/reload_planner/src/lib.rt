//! Plans of one master: what it does to change the number of its workers, to replace those that
//! are lost or overdue, to have them open their logs anew, to reload its configuration, and to stop.
#![tactic(auto)]

mod back;
mod last;
mod mending;
mod one_step;
mod planning;
mod refusal;
mod reloading;
mod renewal;
mod reopening;
mod scene;
mod steps;
mod stopping;
mod workers;

pub use mending::plan_mend;
pub use one_step::no_steps_are_one_step;
pub use planning::plan;
pub use refusal::PlanRefusal;
pub use reloading::plan_reload;
pub use reopening::plan_reopen;
pub use scene::Scene;
pub use stopping::plan_stop;
pub use workers::plan_workers;
