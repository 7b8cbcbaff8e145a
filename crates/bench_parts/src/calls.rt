//! How long the modelled kernel takes for the calls of a reload and of a graceful stop: how many calls that are, and how
//! many workers are ready at the end.

use anyhow::Context;
use kernel_model::{Kernel, Moment, WIDEST_LIMITS};
use listener_set::{DescriptorSet, Generation, Numbers};
use std::time::{Duration, Instant};
use vocabulary::{Actor, Answer, Call, Settings};

const RUNS: u32 = 50;

const OLD: Generation = Generation {
    image: 1,
    config: 1,
};

const NEW: Generation = Generation {
    image: 1,
    config: 2,
};

/// Makes a call of the first master at a quiet moment.
fn ask(kernel: &mut Kernel, call: &Call) -> anyhow::Result<Answer> {
    let quiet = Moment {
        exits: &[],
        fate: None,
    };
    if kernel.room() == 0 {
        return Err(anyhow::anyhow!("no room is left"));
    }
    Ok(kernel.call(Actor(1), call, &[], &quiet))
}

/// New workers are forked, waited for and counted; the old ones quit, the last first; and the new ones
/// are counted again.
fn calls_of_reload(rt: &HostRuntime, workers: u32) -> anyhow::Result<Vec<Call>> {
    let mut calls = Vec::new(rt.alloc());
    for nr in 0..workers {
        calls.push(Call::Fork(NEW, nr, None))?;
    }
    for nr in 0..workers {
        calls.push(Call::AwaitReady(NEW, nr))?;
    }
    calls.push(Call::Census(NEW))?;
    for nr in (0..workers).rev() {
        calls.push(Call::Quit(OLD, nr))?;
    }
    calls.push(Call::Census(NEW))?;
    Ok(calls)
}

/// Each worker quits and is waited for, the first one first; then who is left is counted.
fn calls_of_stop(rt: &HostRuntime, workers: u32) -> anyhow::Result<Vec<Call>> {
    // The borrow checker must be told each type that a call can hold.
    let _set: Option<DescriptorSet> = None;
    let mut calls = Vec::new(rt.alloc());
    for nr in 0..workers {
        calls.push(Call::Quit(OLD, nr))?;
    }
    for nr in 0..workers {
        calls.push(Call::AwaitGone(OLD, nr))?;
    }
    calls.push(Call::Census(OLD))?;
    Ok(calls)
}

/// A kernel with a master and that many workers, and room for so many calls.
fn started(rt: &HostRuntime, workers: u32, calls: u32) -> anyhow::Result<Kernel> {
    let mut kernel = Kernel::boot(rt.alloc(), &Settings::plain(), workers, WIDEST_LIMITS)?;
    kernel.reserve(calls)?;
    Ok(kernel)
}

/// The answer to the last of the calls, and how long they took.
fn timed(
    rt: &HostRuntime,
    kernel: &mut Kernel,
    calls: &[Call],
) -> anyhow::Result<(Option<Answer>, Duration)> {
    let start = Instant::now(rt)?;
    let mut last = None;
    for call in calls {
        last = Some(ask(kernel, call)?);
    }
    Ok((last, start.elapsed(rt)?))
}

/// The answer to the last of the calls, and the least time of all runs.
fn measured(
    rt: &HostRuntime,
    workers: u32,
    calls: &[Call],
) -> anyhow::Result<(Option<Answer>, Duration)> {
    let room = u32::try_from(calls.len()).context("too many calls")?;
    let mut least = Duration::MAX;
    let mut last = None;
    for _run in 0..RUNS {
        let mut kernel = started(rt, workers, room)?;
        let (answer, time) = timed(rt, &mut kernel, calls)?;
        least = least.min(time);
        last = answer;
    }
    Ok((last, least))
}

/// The workers that a census counted; none where it was no census.
fn ready_of(answer: &Option<Answer>) -> Numbers {
    match answer {
        Some(Answer::Counted(numbers)) => *numbers,
        _ => Numbers::none(),
    }
}

/// The calls on a kernel with that many workers.
fn show(rt: &HostRuntime, name: &str, workers: u32, calls: &[Call]) -> anyhow::Result<()> {
    let (last, least) = measured(rt, workers, calls)?;
    let ready = ready_of(&last).len();
    println!(rt; "{name} at {workers}: {} calls, {ready} ready", calls.len())?;
    eprintln!(rt; "{name} at {workers}: {} microseconds", least.as_micros())?;
    Ok(())
}

/// The calls of both with that many workers.
pub(crate) fn make(rt: &HostRuntime, workers: u32) -> anyhow::Result<()> {
    show(rt, "HUP", workers, &calls_of_reload(rt, workers)?)?;
    show(rt, "QUIT", workers, &calls_of_stop(rt, workers)?)
}
