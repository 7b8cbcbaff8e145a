//! How long the planning of a reload and of an upgrade takes, and how many steps each plan has.

ghost use Rattle.std.specs.Prelude.{◌≤◌};
ghost use Rattle.service_state.specs.Targets.{IsTarget};

use listener_set::Numbers;
use service_state::Record;
use std::time::{Duration, Instant};
use vocabulary::{Settings, Target};
use worker_groups::Groups;

const RUNS: u32 = 50;

/// The plan's steps, and the least time in which it was made.
fn measured(rt: &HostRuntime, state: &Record, target: &Target) -> anyhow::Result<(usize, Duration)>
    requires { IsTarget target.now }
{
    let mut least = Duration::MAX;
    let mut steps = 0;
    for _run in 0..RUNS {
        let start = Instant::now(rt)?;
        let plan = upgrade_planner::plan_target(rt.alloc(), state, target)?;
        least = least.min(start.elapsed(rt)?);
        steps = plan.len();
    }
    Ok((steps, least))
}

/// Writes what was measured of a word with that many workers before and after.
fn measure(
    rt: &HostRuntime,
    word: &str,
    workers: u32,
    state: &Record,
    target: &Target,
) -> anyhow::Result<()>
    requires { IsTarget target.now }
{
    let (steps, least) = measured(rt, state, target)?;
    println!(rt; "{word} {workers} to {workers}: {steps} steps")?;
    eprintln!(rt;
        "{word} {workers} to {workers}: {} microseconds",
        least.as_micros()
    )?;
    Ok(())
}

/// A reload and an upgrade with that many workers before and after.
pub(crate) fn renew(rt: &HostRuntime, workers: u32) -> anyhow::Result<()>
    requires { workers ≤ 1024 }
{
    let mut settings = Settings::plain();
    settings.workers = workers;
    settings.groups = Groups::one(1, workers);
    let ready = Numbers::below(workers);
    let state = Record::start(&settings, workers, &ready, 100);
    measure(rt, "HUP", workers, &state, &Target::Reload(settings))?;
    measure(rt, "USR2", workers, &state, &Target::Upgrade(settings))
}
