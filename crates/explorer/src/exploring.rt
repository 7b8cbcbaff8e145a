//! All runs of a target in which at most two things go wrong.
ghost use Rattle.std.specs.Prelude.{◌≡◌, ◌≤◌, ◌+◌, ◌↔◌, ◌⊎◌, ◌∷◌, [], map, None, Some, IfOk, OnOk, IsErrOf};
ghost use Rattle.std.specs.List.{AllByRecursion};
ghost use Rattle.service_state.specs.Targets.{IsTarget};
ghost use Rattle.definitions.specs.Run.{Progress};
ghost use Rattle.plan_executor.specs.Refusals.{IsPlannable};
ghost use Rattle.plan_executor.specs.declared.enactment.EnactRefusal.{EnactRefusal as Refusal};
ghost use Rattle.explorer.specs.Events.{pattern_of};
ghost use Rattle.explorer.specs.Explored.{all_tried, most_events, AreOnce, explored_from};
ghost use Rattle.explorer.specs.Known.{IsPassed};
ghost use Rattle.explorer.specs.Positions.{IsFit, IsAt, IsSameUpTo, left, moment_of};
ghost use Rattle.explorer.specs.Branching.{IsDue, AreKnown, report_of_run, report_with, runs_with, runs_with_each, runs_with_all, pairs_here, pairs_beside, AreCounted, AreCountedHere, AreAllCounted};
ghost use Rattle.explorer.specs.Refusals.{IsRefusedAlways};
ghost use Rattle.explorer.specs.Searched.{AreFewest, AreMost, AreSearched, AreSearchedBehind, AreSearchedBeside, AreSearchedHere, ArePassedSeen, subject_in};

use crate::branching::BranchPoint;
use crate::counting::{Audience, ExploreRefusal, count_report, count_run, look_between};
use crate::effects;
use crate::events::{Event, Mishap, Tried};
use crate::findings::{Findings, common_addresses};
use crate::known::{self, Known, RestOfRun};
use crate::position::Position;
use kernel_model::Kernel;
use plan_executor::{EnactRefusal, agrees, plan_of};
use plan_walk::Turns;
use service_state::Record;
use std::alloc::{AllocError, Global};
use vocabulary::{Name, Target};

/// What is explored: the runs of a target, from a kernel and what its master knows of itself, by turns where two masters have
/// parts of the plan, and with pairs of events where these are asked for.
#[derive(Clone, Copy)]
pub struct Search<'a> {
    pub kernel: &'a Kernel,
    pub state: &'a Record,
    pub target: &'a Target,
    pub turns: &'a Turns,
    pub pairs: bool,
}

/// Why the runs of a target are not all counted.
#[derive(Clone, Copy, Debug)]
pub enum Unexplored {
    /// The target can't be carried out, or memory was refused.
    Enact(EnactRefusal),
    /// The audience has had enough.
    Enough,
}

impl From<EnactRefusal> for Unexplored {
    ghost use Rattle.explorer.specs.declared.exploring.Unexplored.TheVariants.{Enact};

    ghost from_gives = { λ refusal e. e ≡ Enact refusal };

    fn from(refusal: EnactRefusal) -> Unexplored {
        Unexplored::Enact(refusal)
    }
}

impl From<AllocError> for Unexplored {
    ghost use Rattle.plan_executor.specs.declared.enactment.EnactRefusal.TheVariants.{Memory};
    ghost use Rattle.explorer.specs.declared.exploring.Unexplored.TheVariants.{Enact};

    ghost from_gives = { λ _ e. e ≡ Enact Memory };

    fn from(_error: AllocError) -> Unexplored {
        Unexplored::Enact(EnactRefusal::Memory)
    }
}

impl From<ExploreRefusal> for Unexplored {
    ghost use Rattle.explorer.specs.Refusals.{unexplored};

    ghost from_gives = { λ refusal e. e ≡ unexplored refusal };

    fn from(refusal: ExploreRefusal) -> Unexplored {
        match refusal {
            ExploreRefusal::Memory => Unexplored::Enact(EnactRefusal::Memory),
            ExploreRefusal::Enough => Unexplored::Enough,
        }
    }
}

/// Counts the run with this mishap, too, at the call that is due. If `gone` is given, that process exits before it already.
fn count_pair<A: Audience>(
    point: &BranchPoint<'_, '_>,
    first: Event,
    gone: Option<Name>,
    mishap: Mishap,
    found: &mut Findings,
    audience: &mut A,
) -> Result<(), ExploreRefusal>
    requires fit { IsFit point.now.run.now }
    requires due { IsDue point.now }
    requires tried { IsSameUpTo point.now.run.now.made (pattern_of point.now.run.now.tried) (pattern_of (Tried.One first)) }
    requires first { first.number ≤ point.now.run.now.made + 1 }
    requires moment { pattern_of (Tried.One first) (point.now.run.now.made + 1) ≡ moment_of gone }
    ensures counted { (p : Progress) → IsAt point.now.run.now p → OnOk result (AreCountedHere point.now (pairs_here point.now first (mishap ∷ [])) found.old.tally found.new.tally) }
    ensures searched { (p : Progress) → IsAt point.now.run.now p → OnOk result (AreSearchedBehind point.now.run.now p gone (pairs_here point.now first (mishap ∷ [])) found.old found.new) }
{
    let number = point.run.made + 1;
    let tried = Tried::Two(first, Event { number, mishap });
    look_between(point, gone, mishap, &tried, found)?;
    let branch = point.branch(tried, gone, mishap)?;
    count_run(branch, found, audience)
}

/// Counts the runs with one of these mishaps, too, at the call that is due.
fn count_pairs<A: Audience>(
    point: &BranchPoint<'_, '_>,
    first: Event,
    gone: Option<Name>,
    mishaps: &[Mishap],
    found: &mut Findings,
    audience: &mut A,
) -> Result<(), ExploreRefusal>
    requires fit { IsFit point.now.run.now }
    requires due { IsDue point.now }
    requires tried { IsSameUpTo point.now.run.now.made (pattern_of point.now.run.now.tried) (pattern_of (Tried.One first)) }
    requires first { first.number ≤ point.now.run.now.made + 1 }
    requires moment { pattern_of (Tried.One first) (point.now.run.now.made + 1) ≡ moment_of gone }
    ensures counted { (p : Progress) → IsAt point.now.run.now p → OnOk result (AreCountedHere point.now (pairs_here point.now first mishaps.now) found.old.tally found.new.tally) }
    ensures searched { (p : Progress) → IsAt point.now.run.now p → OnOk result (AreSearchedBehind point.now.run.now p gone (pairs_here point.now first mishaps.now) found.old found.new) }
{
    for mishap in mishaps {
        count_pair(point, first, gone, *mishap, found, audience)?;
    }
    Ok(())
}

/// Counts the runs in which one thing more goes wrong at the call of the first one, which is due.
fn count_beside<A: Audience>(
    alloc: Global,
    point: &BranchPoint<'_, '_>,
    first: Event,
    found: &mut Findings,
    audience: &mut A,
) -> Result<(), ExploreRefusal>
    requires fit { IsFit point.now.run.now }
    requires due { IsDue point.now }
    requires tried { point.now.run.now.tried ≡ Tried.Nothing }
    requires first { first.number ≡ point.now.run.now.made + 1 }
    ensures counted { (p : Progress) → IsAt point.now.run.now p → OnOk result (AreCountedHere point.now (pairs_beside point.now first) found.old.tally found.new.tally) }
    ensures searched { (p : Progress) → IsAt point.now.run.now p → OnOk result (AreSearchedBeside point.now.run.now p (Tried.One first) (pairs_beside point.now first) found.old found.new) }
{
    let (run, due) = (point.run, point.due);
    match first.mishap {
        Mishap::Exit(name, process) => {
            let kernel = effects::after_exits(&run.kernel, due.by, &[name])?;
            let heir = effects::waiting(&due.call, run.heir);
            let mishaps = effects::mishaps_at(alloc, &kernel, due, run.text, heir, process)?;
            count_pairs(point, first, Some(name), &mishaps, found, audience)
        }
        Mishap::Fail(_) => Ok(()),
    }
}

/// Counts the runs in which one thing more goes wrong, at one of the calls that are left.
fn count_later<A: Audience>(
    alloc: Global,
    mut run: Position<'_>,
    first: Event,
    found: &mut Findings,
    audience: &mut A,
) -> Result<(), ExploreRefusal>
    requires fit { IsFit run }
    requires tried { run.tried ≡ Tried.One first }
    requires first { first.number ≤ run.made }
    ensures counted { (p : Progress) → IsAt run.entry p → OnOk result (AreCounted run.entry (map (Tried.Two first) (left run.entry p (Some first))) found.old.tally found.new.tally) }
    ensures searched { (p : Progress) → IsAt run.entry p → OnOk result (AreSearched run.entry p (map (Tried.Two first) (left run.entry p (Some first))) found.old found.new) }
{
    while let Some(due) = run.due() {
        let _ready = found.look(&run.kernel, 0, &run.tried, run.made)?;
        let mishaps = run.mishaps(alloc, &due, 0)?;
        let point = BranchPoint {
            run: &run,
            due: &due,
            known: &[],
        };
        count_pairs(&point, first, None, &mishaps, found, audience)?;
        run.make(&due, &[], None);
    }
    Ok(())
}

/// The report of the run with this event, at the call that is due, and its tables: what is known of it, or else what is found
/// when it is carried out.
fn rest_of_run(
    point: &BranchPoint<'_, '_>,
    event: Event,
    found: &mut Findings,
) -> Result<RestOfRun, ExploreRefusal>
    requires fit { IsFit point.now.run.now }
    requires due { IsDue point.now }
    requires tried { point.now.run.now.tried ≡ Tried.Nothing }
    requires number { event.number ≡ point.now.run.now.made + 1 }
    ensures report { (p : Progress) → IsAt point.now.run.now p → AreKnown point.now → IfOk result (λ rest. rest.report ≡ report_of_run point.now.run.now (Tried.One event)) }
    ensures found { found.new.tally ≡ found.old.tally }
    ensures searched { (p : Progress) → IsAt point.now.run.now p → OnOk result (AreSearchedHere point.now p (Tried.One event ∷ []) found.old found.new) }
{
    if let Some(rest) = known::find(point.known, event.mishap) {
        found.pass(rest.tables);
        let tables = rest.tables.saturating_sub(1);
        return Ok(RestOfRun { tables, ..rest });
    }
    let tried = Tried::One(event);
    look_between(point, None, event.mishap, &tried, found)?;
    let whole = point.branch(tried, None, event.mishap)?;
    let before = found.tables;
    let report = whole.finish(found)?;
    let tables = found.tables.saturating_sub(before);
    Ok(RestOfRun { report, tables })
}

/// Counts the run with this mishap at the call that is due and, where pairs are asked for, each in which one thing more goes
/// wrong. Gives what the run comes to.
fn count_with_pairs<A: Audience>(
    alloc: Global,
    point: &BranchPoint<'_, '_>,
    mishap: Mishap,
    pairs: bool,
    found: &mut Findings,
    audience: &mut A,
) -> Result<RestOfRun, ExploreRefusal>
    requires fit { IsFit point.now.run.now }
    requires due { IsDue point.now }
    requires tried { point.now.run.now.tried ≡ Tried.Nothing }
    ensures report { (p : Progress) → IsAt point.now.run.now p → AreKnown point.now → IfOk result (λ rest. rest.report ≡ report_with point.now mishap) }
    ensures counted { (p : Progress) → IsAt point.now.run.now p → AreKnown point.now → OnOk result (AreCountedHere point.now (runs_with point.now pairs mishap) found.old.tally found.new.tally) }
    ensures searched { (p : Progress) → IsAt point.now.run.now p → OnOk result (AreSearchedHere point.now p (runs_with point.now pairs mishap) found.old found.new) }
{
    if !audience.wants_more() {
        return Err(ExploreRefusal::Enough);
    }
    let number = point.run.made + 1;
    let first = Event { number, mishap };
    let rest = rest_of_run(point, first, found)?;
    count_report(&Tried::One(first), &rest.report, found, audience)?;
    if !pairs {
        return Ok(rest);
    }
    count_beside(alloc, point, first, found, audience)?;
    let behind = point.branch(Tried::One(first), None, mishap)?;
    count_later(alloc, behind, first, found, audience)?;
    Ok(rest)
}

/// Counts the runs with one of these mishaps first, at the call that is due. Gives what is known of those with it at the next
/// call.
fn count_all_with_pairs<A: Audience>(
    alloc: Global,
    point: &BranchPoint<'_, '_>,
    mishaps: &[Mishap],
    pairs: bool,
    found: &mut Findings,
    audience: &mut A,
) -> Result<Vec<Known>, ExploreRefusal>
    requires fit { IsFit point.now.run.now }
    requires due { IsDue point.now }
    requires tried { point.now.run.now.tried ≡ Tried.Nothing }
    ensures known { (p : Progress) → IsAt point.now.run.now p → AreKnown point.now → IfOk result (λ next. AllByRecursion (IsPassed point.now.run.now point.now.due.now.call) next.items) }
    ensures counted { (p : Progress) → IsAt point.now.run.now p → AreKnown point.now → OnOk result (AreAllCounted point.now pairs mishaps.now found.old.tally found.new.tally) }
    ensures searched { (p : Progress) → IsAt point.now.run.now p → OnOk result (AreSearchedHere point.now p (runs_with_all point.now pairs mishaps.now) found.old found.new) }
    ensures passed { (p : Progress) → IsAt point.now.run.now p → IfOk result (λ next. ArePassedSeen point.now p found.old found.new next.items) }
{
    let mut next = Vec::new(alloc);
    for mishap in mishaps {
        let rest = count_with_pairs(alloc, point, *mishap, pairs, found, audience)?;
        if let Some(item) = known::known_at_next(&point.due.call, *mishap, rest) {
            effects::push(&mut next, item)?;
        }
    }
    Ok(next)
}

/// Counts the runs in which something goes wrong at one of the calls that are left. Most exits make no difference to a call:
/// what is known of the run in which a worker exits before it is so of the one in which it exits before the next.
fn count_events<A: Audience>(
    alloc: Global,
    mut run: Position<'_>,
    pairs: bool,
    found: &mut Findings,
    audience: &mut A,
) -> Result<(), ExploreRefusal>
    requires fit { IsFit run }
    requires tried { run.tried ≡ Tried.Nothing }
    ensures counted { (p : Progress) → IsAt run.entry p → OnOk result (AreCounted run.entry (runs_with_each run.entry pairs (left run.entry p None)) found.old.tally found.new.tally) }
    ensures searched { (p : Progress) → IsAt run.entry p → OnOk result (AreSearched run.entry p (runs_with_each run.entry pairs (left run.entry p None)) found.old found.new) }
{
    let mut known = Vec::new(alloc);
    while let Some(due) = run.due() {
        let _ready = found.look(&run.kernel, 0, &run.tried, run.made)?;
        let mishaps = run.mishaps(alloc, &due, 0)?;
        let point = BranchPoint {
            run: &run,
            due: &due,
            known: &known,
        };
        known = count_all_with_pairs(alloc, &point, &mishaps, pairs, found, audience)?;
        run.make(&due, &[], None);
    }
    Ok(())
}

/// Counts the run of a target under no event, and a run for each event that this run meets: each exit that matters
/// before one of its calls, and each failure of the call that takes effect; where pairs are asked for, also a run for each
/// pair of these of which the run with the first one meets the second. All runs are by the same turns. Each report is that of
/// `enact` in the section of these turns and the pattern. In all tables of all runs it finds the fewest Ready workers of an address
/// that both services name, and the most workers that live at once.
///
/// The audience hears of each run, and may end them. What was counted until then, or until memory was refused, stays
/// counted. A target is refused exactly where `enact` refuses it in whatever section, and so: E2, E3, E5. Want of memory
/// is told only where neither E2 nor E3 is due.
pub fn explore<A: Audience>(
    alloc: Global,
    search: &Search<'_>,
    found: &mut Findings,
    audience: &mut A,
) -> Result<(), Unexplored>
    requires { IsTarget search.now.target.now }
    ensures counted { OnOk result (found.new.tally ≡ explored_from search.now.state.now search.now.target.now search.now.turns.now search.now.kernel.now.table search.now.pairs found.old.tally) }
    ensures least { OnOk result (AreFewest (subject_in search.now) search.now.pairs found.old found.new) }
    ensures most { OnOk result (AreMost (subject_in search.now) search.now.pairs found.old found.new) }
    ensures once { OnOk result (AreOnce (most_events search.now.pairs) (all_tried search.now.state.now search.now.target.now search.now.turns.now search.now.kernel.now.table search.now.pairs)) }
    ensures exact { (why : Refusal)
        → IsErrOf result (Unexplored.Enact EnactRefusal.Memory) ⊎ (IsErrOf result (Unexplored.Enact why) ↔ IsRefusedAlways search.now why) }
    ensures memory { IsErrOf result (Unexplored.Enact EnactRefusal.Memory) → IsPlannable search.now.kernel.now.table search.now.state.now search.now.target.now }
{
    let Search {
        kernel,
        state,
        target,
        turns,
        pairs,
    } = *search;
    if !agrees(state, kernel) {
        return Err(Unexplored::Enact(EnactRefusal::RecordDisagrees));
    }
    let plan = plan_of(alloc, state, target)?;
    let common = common_addresses(alloc, kernel, state, target)?;
    let whole = Position::start(kernel, state, target, turns, &plan)?;
    let run = Position::start(kernel, state, target, turns, &plan)?;
    found.begin(common);
    count_run(whole, found, audience)?;
    count_events(alloc, run, pairs, found, audience)?;
    Ok(())
}
