//! The deaths of a word's masters, from a kernel as it is, and what is said of them.
ghost use Rattle.std.specs.Prelude.{◌≡◌, IfOk};
ghost use Rattle.service_state.specs.Targets.{IsTarget};
ghost use Rattle.master_on_kernel.specs.Dying.{AreDeathsOf, AreDeathsCounted, is_lost, is_few, is_death_violated, is_death_unknown, death_status, CountsDeaths, IsDeathSummary};

use crate::Rehearsal;
use crate::planning::{Outlook, told};
use crate::summing::Demands;
use control_words::Word;
use death_explorer::{DeathCounts, DeathSearch, LeastLeft, explore_deaths};
use exploration_text::write_deaths;
use faults::Fault;
use kernel_model::{Kernel, Turns};
use service_state::Record;
use std::alloc::{AllocError, Global};
use vocabulary::{Settings, Target};
use word_runner::{Asked, Body, TargetRefusal, asked_by, note};

/// What came of the deaths in the runs of a word.
#[derive(Drop)]
pub enum DeathsExplored {
    /// All of them are counted.
    All,
    /// There is nothing to count: what the word comes to instead.
    Told(Body),
}

/// Which deaths are counted, and how a master is started after each.
#[derive(Clone, Copy)]
pub struct DeathTrials<'a> {
    /// The orders of turns by which the runs go, where two masters have parts of the plan.
    pub orders: &'a [Turns],
    /// The settings of the start.
    pub settings: &'a Settings,
}

/// Counts the deaths in the runs of a target.
fn count_deaths(
    alloc: Global,
    kernel: &Kernel,
    state: &Record,
    target: &Target,
    trials: &DeathTrials<'_>,
    counts: &mut DeathCounts,
) -> Result<DeathsExplored, Fault>
    requires { IsTarget target.now }
    ensures { IfOk result (AreDeathsOf kernel.now.table state.now target.now trials.now counts.old counts.new) }
{
    let search = DeathSearch {
        kernel,
        state,
        target,
        orders: trials.orders,
        settings: trials.settings,
    };
    match explore_deaths(alloc, &search, counts) {
        Ok(()) => Ok(DeathsExplored::All),
        Err(refusal) => match TargetRefusal::from(refusal) {
            TargetRefusal::Memory => Err(Fault::Memory),
            TargetRefusal::Coded(code) => Ok(DeathsExplored::Told(Body::Refused(code))),
        },
    }
}

impl Rehearsal {
    /// Counts what a start comes to after each death of a word's masters, by each order, on the sockets that somebody else was
    /// lent before.
    pub fn explore_deaths(
        &mut self,
        alloc: Global,
        word: Word,
        trials: &DeathTrials<'_>,
        counts: &mut DeathCounts,
    ) -> Result<DeathsExplored, Fault>
        ensures { IfOk result (AreDeathsCounted self.old word trials.now counts.old counts.new) }
    {
        let Some(record) = self.standing.record else {
            return Ok(DeathsExplored::Told(Body::Nothing));
        };
        match asked_by(word, &record, &self.standing.workers, Some(&self.next)) {
            Asked::Act(target) => {
                count_deaths(
                    alloc,
                    &self.standing.world,
                    &record,
                    &target,
                    trials,
                    counts,
                )
            }
            Asked::Beat(heard) => Ok(DeathsExplored::Told(note(&mut self.standing.workers, heard))),
            Asked::Nothing => Ok(DeathsExplored::Told(Body::Nothing)),
            Asked::Refused(code) => Ok(DeathsExplored::Told(Body::Refused(code))),
        }
    }
}

/// What the deaths of a word by these orders came to, and the exit status that goes with it.
pub fn death_summary(
    alloc: Global,
    explored: &DeathsExplored,
    orders: &[Turns],
    counts: &DeathCounts,
    demands: &Demands,
) -> Result<Outlook, AllocError>
    ensures { IfOk result (IsDeathSummary explored.now orders.now counts.now demands.now) }
{
    match explored {
        DeathsExplored::All => counted(alloc, orders, counts, demands),
        DeathsExplored::Told(body) => told(alloc, body),
    }
}

fn counted(
    alloc: Global,
    orders: &[Turns],
    counts: &DeathCounts,
    demands: &Demands,
) -> Result<Outlook, AllocError>
    ensures { IfOk result (CountsDeaths orders.now counts.now demands.now) }
{
    let mut text = Vec::new(alloc);
    write_deaths(&mut text, orders, counts)?;
    Ok(Outlook {
        text,
        status: death_status(demands, counts),
    })
}

/// 4 where a death showed what is not to be, and 6 where what is demanded is not known.
fn death_status(demands: &Demands, counts: &DeathCounts) -> u8
    ensures { result ≡ death_status demands.now counts.now }
{
    if is_violated(demands, counts) {
        4
    } else if is_unknown(demands, counts) {
        6
    } else {
        0
    }
}

fn is_violated(demands: &Demands, counts: &DeathCounts) -> bool
    ensures { result ≡ is_death_violated demands.now counts.now }
{
    (demands.forbids_degraded && is_lost(counts)) || is_few(demands.least, &counts.least)
}

/// Whether a start did not bring the service of the settings in full.
fn is_lost(counts: &DeathCounts) -> bool
    ensures { result ≡ is_lost counts.now }
{
    counts.short.count > 0 || counts.closed.count > 0
}

/// Whether an address had fewer ready workers before a start than are wanted.
fn is_few(wanted: Option<u32>, least: &Option<LeastLeft>) -> bool
    ensures { result ≡ is_few wanted least.now }
{
    match (wanted, least) {
        (Some(wanted), Some(found)) => found.ready < wanted,
        _ => false,
    }
}

/// Whether it is not known if the deaths are as is demanded: none was healed, or none was there.
fn is_unknown(demands: &Demands, counts: &DeathCounts) -> bool
    ensures { result ≡ is_death_unknown demands.now counts.now }
{
    (demands.requires_done && counts.healed.count == 0)
        || (demands.least.is_some() && counts.least.is_none())
}
