//! The programs of the children of an edge: a worker, and a new master that takes over, both on pipes.
#![tactic(auto)]

mod answering;
mod handover_lines;
mod hearing;
mod lines;
mod master;
mod requests;
mod saying;
mod serving;
mod worker;
mod worker_lines;

pub use answering::{Answers, Refusing};
pub use handover_lines::{HandoverLines, Part};
pub use hearing::{Hears, Reaction};
pub use master::{NewMaster, Spawn};
pub use requests::{CallLine, MasterRequest, read_request};
pub use serving::{ServedMaster, serve_master, serve_worker};
pub use worker::WorkerProgram;
pub use worker_lines::{WorkerLine, read_worker_line};
