//! Runs, carried out and counted.
ghost use Rattle.std.specs.Prelude.{◌≡◌, ◌∷◌, [], IfOk, OnOk};
ghost use Rattle.definitions.specs.Calls.{after_exits};
ghost use Rattle.definitions.specs.Run.{Progress};
ghost use Rattle.explorer.specs.Events.{pattern_of};
ghost use Rattle.explorer.specs.Tallies.{counted};
ghost use Rattle.explorer.specs.Positions.{IsFit, IsAt, IsQuietFrom};
ghost use Rattle.explorer.specs.Branching.{AreCounted};
ghost use Rattle.explorer.specs.Looking.{exits_between, IsLookedBetween, IsSeenBetween, IsSameSo};
ghost use Rattle.explorer.specs.Searched.{AreSearched};

use crate::branching::BranchPoint;
use crate::effects;
use crate::events::{Mishap, Tried};
use crate::findings::Findings;
use crate::position::Position;
use kernel_model::Kernel;
use std::alloc::AllocError;
use vocabulary::{Actor, Name, Report};

/// Why the counting of runs stops before their end.
#[derive(Clone, Copy, Debug)]
pub enum ExploreRefusal {
    /// Memory was refused.
    Memory,
    /// The audience has had enough.
    Enough,
}

impl From<AllocError> for ExploreRefusal {
    ghost use Rattle.explorer.specs.declared.counting.ExploreRefusal.TheVariants.{Memory};

    ghost from_gives = { λ _ e. e ≡ Memory };

    fn from(_error: AllocError) -> ExploreRefusal {
        ExploreRefusal::Memory
    }
}

/// Who is told of each run.
pub trait Audience {
    /// Whether there is to be one run more.
    fn wants_more(&self) -> bool;

    /// Hears of a run; whether there may be more.
    fn hear(&mut self, tried: &Tried, report: &Report) -> bool;
}

/// Counts a run that reports this.
pub(crate) fn count_report<A: Audience>(
    tried: &Tried,
    report: &Report,
    found: &mut Findings,
    audience: &mut A,
) -> Result<(), ExploreRefusal>
    ensures counted { OnOk result (found.new.tally ≡ counted tried.now report.now.outcome found.old.tally) }
    ensures same { IsSameSo found.old found.new }
{
    found.tally.count(tried, &report.outcome)?;
    if audience.hear(tried, report) {
        Ok(())
    } else {
        Err(ExploreRefusal::Enough)
    }
}

/// Carries out the rest of a run, in which nothing more goes wrong, and counts the run.
pub(crate) fn count_run<A: Audience>(
    run: Position<'_>,
    found: &mut Findings,
    audience: &mut A,
) -> Result<(), ExploreRefusal>
    requires fit { IsFit run }
    requires quiet { IsQuietFrom run.made (pattern_of run.tried) }
    ensures counted { (p : Progress) → IsAt run.entry p → OnOk result (AreCounted run.entry (run.entry.tried ∷ []) found.old.tally found.new.tally) }
    ensures searched { (p : Progress) → IsAt run.entry p → OnOk result (AreSearched run.entry p (run.entry.tried ∷ []) found.old found.new) }
{
    if !audience.wants_more() {
        return Err(ExploreRefusal::Enough);
    }
    let tried = run.tried;
    let report = run.finish(found)?;
    count_report(&tried, &report, found, audience)
}

/// The kernel after these exits.
fn kernel_between(
    kernel: &Kernel,
    by: Actor,
    gone: Option<Name>,
    name: Name,
) -> Result<Kernel, AllocError>
    ensures { IfOk result (λ k. k.table ≡ after_exits (exits_between gone name) kernel.now.table) }
{
    match gone {
        Some(gone) => effects::after_exits(kernel, by, &[gone, name]),
        None => effects::after_exits(kernel, by, &[name]),
    }
}

/// Looks at the table between the exits of a moment and its call: this mishap happens at the call that is due and, if `gone` is
/// given, that process exits first. What is found there is told of this run and of the number of calls before. A call that
/// fails has no such table of its own.
pub(crate) fn look_between(
    point: &BranchPoint<'_, '_>,
    gone: Option<Name>,
    mishap: Mishap,
    tried: &Tried,
    found: &mut Findings,
) -> Result<(), AllocError>
    ensures tally { found.new.tally ≡ found.old.tally }
    ensures looked { IsLookedBetween point.now gone mishap tried.now found.old found.new }
    ensures seen { OnOk result (IsSeenBetween point.now gone mishap found.new) }
{
    let (run, due) = (point.run, point.due);
    if let Mishap::Exit(name, _) = mishap {
        let kernel = kernel_between(&run.kernel, due.by, gone, name)?;
        let _ready = found.look(&kernel, 0, tried, run.made)?;
    }
    Ok(())
}
