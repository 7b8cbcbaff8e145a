//! How long parts of the program take: calls of the modelled kernel, and planning. It writes how many calls and steps these
//! are, and to the error output the least time of 50 runs.
#![tactic(auto)]

mod calls;
mod planning;

use calls::make;
use planning::renew;

fn main(rt: HostRuntime) -> anyhow::Result<()> {
    make(&rt, 128)?;
    make(&rt, 1024)?;
    renew(&rt, 2)?;
    renew(&rt, 128)?;
    renew(&rt, 1024)
}
