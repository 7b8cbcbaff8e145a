//! `explore`: what is said of all runs of a word.
ghost use Rattle.std.specs.Prelude.{◌≡◌, IfOk};
ghost use Rattle.master_on_kernel.specs.Summaries.{is_degraded, is_short, is_violated, is_never_done, has_no_address, demands_some, is_unknown, status_of, Counts, IsSummary};

use crate::exploring::Explored;
use crate::planning::{Outlook, told};
use exploration_text::write_summary;
use kernel_model::Turns;
use order_explorer::{OrderedLeast, Totals};
use std::alloc::{AllocError, Global};

/// What is demanded of the runs of a word.
#[derive(Clone, Copy)]
pub struct Demands {
    /// None ends degraded.
    pub forbids_degraded: bool,
    /// One is done.
    pub requires_done: bool,
    /// Each address that stays has so many ready workers at least.
    pub least: Option<u32>,
}

/// What the runs of a word by these orders came to, and the exit status that goes with it.
pub fn summary(
    alloc: Global,
    explored: &Explored,
    orders: &[Turns],
    totals: &Totals,
    demands: &Demands,
) -> Result<Outlook, AllocError>
    ensures { IfOk result (IsSummary explored.now orders.now totals.now demands.now) }
{
    match explored {
        Explored::All => counted(alloc, orders, totals, false, demands),
        Explored::Cut => counted(alloc, orders, totals, true, demands),
        Explored::Told(body) => told(alloc, body),
    }
}

fn counted(
    alloc: Global,
    orders: &[Turns],
    totals: &Totals,
    is_cut: bool,
    demands: &Demands,
) -> Result<Outlook, AllocError>
    ensures { IfOk result (Counts orders.now totals.now is_cut demands.now) }
{
    let mut text = Vec::new(alloc);
    write_summary(&mut text, orders, totals, is_cut)?;
    Ok(Outlook {
        text,
        status: status_of(demands, totals, is_cut),
    })
}

/// 4 where a run showed what is not to be, and 6 where what is demanded is not known.
fn status_of(demands: &Demands, totals: &Totals, is_cut: bool) -> u8
    ensures { result ≡ status_of demands.now totals.now is_cut }
{
    if is_violated(demands, totals) {
        4
    } else if is_unknown(demands, totals, is_cut) {
        6
    } else {
        0
    }
}

fn is_violated(demands: &Demands, totals: &Totals) -> bool
    ensures { result ≡ is_violated demands.now totals.now }
{
    (demands.forbids_degraded && is_degraded(totals)) || is_short(demands.least, &totals.least)
}

/// Whether a run ended degraded.
fn is_degraded(totals: &Totals) -> bool
    ensures { result ≡ is_degraded totals.now }
{
    totals.degraded_old.count > 0 || totals.degraded_target.count > 0
}

/// Whether an address that stays had fewer ready workers than are wanted.
fn is_short(wanted: Option<u32>, least: &Option<OrderedLeast>) -> bool
    ensures { result ≡ is_short wanted least.now }
{
    match (wanted, least) {
        (Some(wanted), Some(found)) => found.least.ready < wanted,
        _ => false,
    }
}

/// Whether it is not known if the runs are as is demanded: runs are left, no run was done, or no address stays.
fn is_unknown(demands: &Demands, totals: &Totals, is_cut: bool) -> bool
    ensures { result ≡ is_unknown demands.now totals.now is_cut }
{
    (is_cut && demands_some(demands))
        || (demands.requires_done && is_never_done(totals))
        || has_no_address(demands.least, &totals.least)
}

fn demands_some(demands: &Demands) -> bool
    ensures { result ≡ demands_some demands.now }
{
    demands.forbids_degraded || demands.requires_done || demands.least.is_some()
}

fn is_never_done(totals: &Totals) -> bool
    ensures { result ≡ is_never_done totals.now }
{
    totals.done.count == 0
}

/// Whether no address stays of which so many workers are wanted.
fn has_no_address(wanted: Option<u32>, least: &Option<OrderedLeast>) -> bool
    ensures { result ≡ has_no_address wanted least.now }
{
    wanted.is_some() && least.is_none()
}
