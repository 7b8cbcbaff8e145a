//! Plans carried out on children in memory, of which each call fails in turn.
ghost use Rattle.service_state.specs.Targets.{IsTarget};

use crate::setup::{Telling, ask};
use child_edge::Edge;
use child_family::Family;
use child_recorder::{FamilyCall, Recorded};
use listener_set::Numbers;
use plan_walk::{Calls, Transcript, Turns, execute};
use service_state::Record;
use std::alloc::Global;
use std::test::Fail;
use vocabulary::{Answer, Call, Outcome, Settings, Target, Turn};

/// The new master's turn and then the old one's, so many times; and the same the other way round.
fn by_turns(alloc: Global, count: u32) -> Result<[Turns; 2], Fail> {
    let mut new_first = Turns::new(alloc);
    let mut old_first = Turns::new(alloc);
    for _ in 0..count {
        new_first.add(Turn::New)?;
        new_first.add(Turn::Old)?;
        old_first.add(Turn::Old)?;
        old_first.add(Turn::New)?;
    }
    Ok([new_first, old_first])
}

/// Carries a target out under turns. Gives what the master knows then, or none where nothing runs.
fn carry_out<F: Family + Drop>(
    alloc: Global,
    edge: &mut Edge<F>,
    known: &Record,
    target: &Target,
    turns: &Turns,
) -> Result<(Outcome, Option<Record>), Fail>
    requires { IsTarget target.now }
{
    let Ok(plan) = upgrade_planner::plan_target(alloc, known, target) else {
        return Ok((Outcome::Lost, None));
    };
    let longest = plan.longest();
    edge.reserve(longest, plan.text())?;
    let mut log = Transcript::with_room(alloc, longest)?;
    if edge.room() < longest {
        return Ok((Outcome::Lost, None));
    }
    let report = execute(&plan, edge, turns, &mut log);
    Ok((report.outcome, known.after(target, &report, known.pid)))
}

/// Whether a line is answered.
fn is_answered(line: &[u8]) -> bool {
    match line {
        b"go" | b"ping" | b"quit" | b"alive" => true,
        _ => line.starts_with(b"m"),
    }
}

/// Whether no child was heard more often than it was told a line with an answer.
fn hears_no_answer_twice(calls: &[FamilyCall]) -> bool {
    for (at, call) in calls.iter().enumerate() {
        if let FamilyCall::HeardLine(id, _, _) = call {
            if heard(&calls[..at], *id) >= told(&calls[..at], *id) {
                return false;
            }
        }
    }
    true
}

fn heard(calls: &[FamilyCall], id: u32) -> usize {
    calls
        .iter()
        .filter(|call| matches!(call, FamilyCall::HeardLine(other, _, _) if *other == id))
        .count()
}

fn told(calls: &[FamilyCall], id: u32) -> usize {
    calls
        .iter()
        .filter(
            |call| matches!(call, FamilyCall::Said(other, line, _) if *other == id && is_answered(line)),
        )
        .count()
}

/// Whether the edge's own master has left. Whoever runs then can be lost.
fn has_left<F: Family + Drop>(edge: &mut Edge<F>) -> Result<bool, Fail> {
    edge.reserve(1, &[])?;
    Ok(ask(edge, 1, Call::Adopt) == Some(Answer::MasterGone))
}

/// Starts two workers under turns. Gives what the master knows then.
fn start_two<F: Family + Drop>(
    alloc: Global,
    edge: &mut Edge<F>,
    known: Record,
    turns: &Turns,
) -> Result<(Outcome, Record), Fail> {
    let (started, next) = carry_out(alloc, edge, &known, &Target::Workers(2), turns)?;
    Ok((started, next.unwrap_or(known)))
}

/// How a change under turns ends, where a call of the family fails. A run that is lost once the edge's own master has
/// left counts as done.
fn outcome<F: Telling>(
    alloc: Global,
    edge: &mut Edge<F>,
    known: &Record,
    change: &Target,
    turns: &Turns,
) -> Result<Outcome, Fail>
    requires { IsTarget change.now }
{
    let (changed, next) = carry_out(alloc, edge, known, change, turns)?;
    if !hears_no_answer_twice(edge.family().calls_told()) {
        return Ok(Outcome::Lost);
    }
    if changed == Outcome::Lost && has_left(edge)? {
        return Ok(Outcome::Done);
    }
    if let Some(known) = next {
        let _ = carry_out(alloc, edge, &known, &Target::Stop { quick: true }, turns)?;
    }
    Ok(changed)
}

/// How a start of two workers and a change of them under turns end.
fn outcomes<F: Telling>(
    alloc: Global,
    family: F,
    change: &Target,
    turns: &Turns,
) -> Result<[Outcome; 2], Fail>
    requires { IsTarget change.now }
{
    let known = Record::start(&Settings::plain(), 0, &Numbers::none(), 100);
    let mut edge = Edge::new(alloc, family, &known, 0)?;
    let (started, known) = start_two(alloc, &mut edge, known, turns)?;
    Ok([started, outcome(alloc, &mut edge, &known, change, turns)?])
}

#[test]
fn carries_targets_out(rt: HostRuntime) -> Result<(), Fail> {
    let alloc = rt.alloc();
    for change in &[
        Target::Reopen,
        Target::Reload(Settings::plain()),
        Target::Upgrade(Settings::plain()),
        Target::Stop { quick: false },
    ] {
        for turns in &by_turns(alloc, 4)? {
            let ended = outcomes(alloc, Recorded::new(alloc, None), change, turns)?;
            assert!(rt; ended == [Outcome::Done, Outcome::Done]);
        }
    }
    Ok(())
}

#[test]
fn no_failing_call_loses_a_master(rt: HostRuntime) -> Result<(), Fail> {
    let alloc = rt.alloc();
    for change in &[
        Target::Reload(Settings::plain()),
        Target::Upgrade(Settings::plain()),
    ] {
        for turns in &by_turns(alloc, 13)? {
            for fails in 0..40 {
                let family = Recorded::new(alloc, Some(fails));
                let ended = outcomes(alloc, family, change, turns)?;
                assert!(rt;
                    ended[0] != Outcome::Lost && ended[1] != Outcome::Lost,
                    "at {fails}"
                );
            }
        }
    }
    Ok(())
}
