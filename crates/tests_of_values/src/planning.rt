//! That no two steps of a plan are alike, what an upgrade hands over, and what no word of one master asks for.
ghost use Rattle.service_state.specs.Targets.{IsTarget};

use crate::records::{in_two_groups, settings_of, with_workers};
use listener_set::{Generation, Numbers};
use reload_planner::{PlanRefusal, plan};
use rollback_plan::{MOST_STEPS, Plan, PlanEdge, Step};
use service_state::Record;
use std::alloc::Global;
use std::test::Fail;
use vocabulary::{Outcome, PidNote, Report, Settings, Target};

/// Settings with these addresses and so many workers, with two rounds and a pid file.
fn settings(addresses: &[&str], workers: u32) -> Result<Settings, Fail> {
    let mut settings = with_workers(&settings_of(addresses)?, workers.min(1024));
    settings.retries = 2;
    Ok(settings)
}

/// What is heard of so many workers, where all are ready.
fn all_ready(workers: u32, note: PidNote) -> Report {
    Report {
        outcome: Outcome::Done,
        cause: None,
        note,
        ready: Numbers::below(workers.min(1024)),
    }
}

/// A master of two addresses that starts with so many workers, of which none is ready.
fn bare(workers: u32) -> Result<Record, Fail> {
    let settings = settings(&["0.0.0.0:8080", "0.0.0.0:9090"], workers)?;
    Ok(Record::start(&settings, workers.min(1024), &Numbers::none(), 100))
}

/// A master of two addresses whose workers are all ready.
fn running(workers: u32, note: PidNote) -> Result<Record, Fail> {
    let ready = all_ready(workers, note);
    Ok(
        bare(workers)?
            .after(&Target::Reopen, &ready, 100)
            .ok_or("no record")?,
    )
}

/// A master with one worker of this generation.
fn running_as(image: u32, config: u32) -> Result<Record, Fail> {
    let mut state = running(1, PidNote::InPlace)?;
    state.generation = Generation { image, config };
    Ok(state)
}

/// Why a reload to settings is refused, if it is.
fn reload_refusal(alloc: Global, state: &Record, settings: Settings) -> Option<PlanRefusal> {
    plan(alloc, state, &Target::Reload(settings)).err()
}

/// Why an upgrade to settings is refused as a target of one master.
fn upgrade_refusal(alloc: Global, state: &Record, settings: Settings) -> Option<PlanRefusal> {
    plan(alloc, state, &Target::Upgrade(settings)).err()
}

#[test]
fn a_configuration_beyond_the_last_is_refused(rt: HostRuntime) -> Result<(), Fail> {
    let settings = settings(&["0.0.0.0:8080"], 1)?;
    let next = running_as(1, u32::MAX - 1)?;
    assert_eq!(rt; reload_refusal(rt.alloc(), &next, settings), None);
    let refused = Some(PlanRefusal::NoGeneration);
    let last = running_as(1, u32::MAX)?;
    assert_eq!(rt; reload_refusal(rt.alloc(), &last, settings), refused);
    assert_eq!(rt; upgrade_refusal(rt.alloc(), &last, settings), refused);
    Ok(())
}

/// The upgrade of a master to settings.
fn upgrade_of(alloc: Global, state: &Record, settings: &Settings) -> Result<Plan, Fail> {
    Ok(upgrade_planner::plan(alloc, state, settings)?)
}

/// What a new master is handed where an address is dropped.
const HANDED: &[u8] =
    b"handover 2\nold-pid 100\ngeneration 2 2\nlistener 3 0.0.0.0:8080\nlistener 4 0.0.0.0:9090\ngroup 2\n\
    want 0.0.0.0:8080\npid-file /run/a.pid\nend\n";

#[test]
fn an_upgrade_hands_a_text_over(rt: HostRuntime) -> Result<(), Fail> {
    let settings = settings(&["0.0.0.0:8080"], 2)?;
    let plan = upgrade_of(rt.alloc(), &running(2, PidNote::InPlace)?, &settings)?;
    assert_eq!(rt; plan.len(), 55);
    assert!(rt; plan.text() == HANDED);
    Ok(())
}

/// What a new master is handed where each address has a group.
const HANDED_GROUPS: &[u8] =
    b"handover 2\nold-pid 100\ngeneration 2 2\nlistener 3 0.0.0.0:8080\nlistener 4 0.0.0.0:9090\ngroup 1\n\
    want 0.0.0.0:8080\ngroup 1\nwant 0.0.0.0:9090\npid-file /run/a.pid\nend\n";

#[test]
fn an_upgrade_hands_each_group_over(rt: HostRuntime) -> Result<(), Fail> {
    let grouped = in_two_groups(&settings(&["0.0.0.0:8080", "0.0.0.0:9090"], 2)?)?;
    let plan = upgrade_of(rt.alloc(), &running(2, PidNote::InPlace)?, &grouped)?;
    assert!(rt; plan.text() == HANDED_GROUPS);
    Ok(())
}

/// Whether two edges are the same.
fn same_edge(a: &PlanEdge, b: &PlanEdge) -> bool {
    a.replies == b.replies && a.note == b.note && a.next == b.next
}

/// Whether two steps are the same, with the same edges.
fn are_alike(a: &Step, b: &Step) -> bool {
    a.by == b.by
        && a.order() == b.order()
        && a.set() == b.set()
        && a.edges.len() == b.edges.len()
        && a.edges
            .iter()
            .zip(b.edges.iter())
            .all(|(x, y)| same_edge(x, y))
}

/// Whether two steps of a plan are alike.
fn repeats(plan: &Plan) -> bool {
    let steps = plan.len().min(MOST_STEPS) as u32;
    for number in 1..steps {
        for later in number + 1..steps + 1 {
            if let (Some(a), Some(b)) = (plan.get(number), plan.get(later)) {
                if are_alike(a, b) {
                    return true;
                }
            }
        }
    }
    false
}

/// Whether no two steps of a target's plan are alike.
fn is_distinct(alloc: Global, state: &Record, target: &Target) -> Result<bool, Fail>
    requires { IsTarget target.now }
{
    Ok(!repeats(&plan(alloc, state, target)?))
}

/// A master with so many workers, and so many rounds of starts.
fn with_rounds(workers: u32, note: PidNote, rounds: u32) -> Result<Record, Fail> {
    let mut state = running(workers, note)?;
    state.retries = rounds.min(8);
    Ok(state)
}

/// Masters with up to four workers and up to two rounds.
fn masters(alloc: Global) -> Result<Vec<Record>, Fail> {
    let mut masters = Vec::new(alloc);
    for workers in 0..5 {
        for note in [PidNote::InPlace, PidNote::AtOldbin, PidNote::OldbinLeft] {
            for rounds in 0..3 {
                masters.push(with_rounds(workers, note, rounds)?)?;
            }
        }
    }
    Ok(masters)
}

/// Other addresses with three workers.
fn other() -> Result<Settings, Fail> {
    settings(&["0.0.0.0:9090", "0.0.0.0:7070"], 3)
}

/// The same addresses with no workers.
fn no_workers() -> Result<Settings, Fail> {
    settings(&["0.0.0.0:8080", "0.0.0.0:9090"], 0)
}

/// Places with the same step and the same edges are one.
#[test]
fn no_two_steps_of_a_plan_are_alike(rt: HostRuntime) -> Result<(), Fail> {
    for state in &masters(rt.alloc())? {
        assert!(rt; is_distinct(rt.alloc(), state, &Target::Workers(2))?);
        assert!(rt; is_distinct(rt.alloc(), state, &Target::Workers(5))?);
        assert!(rt; is_distinct(rt.alloc(), state, &Target::Reopen)?);
        assert!(rt; is_distinct(rt.alloc(), state, &Target::Stop { quick: false })?);
        assert!(rt; is_distinct(rt.alloc(), state, &Target::Stop { quick: true })?);
    }
    Ok(())
}

#[test]
fn no_two_steps_of_a_mending_are_alike(rt: HostRuntime) -> Result<(), Fail> {
    let mut overdue = Numbers::none();
    overdue.add(0);
    overdue.add(2);
    for state in &masters(rt.alloc())? {
        assert!(rt; is_distinct(rt.alloc(), state, &Target::Mend(overdue))?);
    }
    Ok(())
}

#[test]
fn no_two_steps_of_a_reload_are_alike(rt: HostRuntime) -> Result<(), Fail> {
    let (other, none) = (other()?, no_workers()?);
    for state in &masters(rt.alloc())? {
        assert!(rt; is_distinct(rt.alloc(), state, &Target::Reload(other))?);
        assert!(rt; is_distinct(rt.alloc(), state, &Target::Reload(none))?);
    }
    Ok(())
}

#[test]
fn no_two_steps_of_an_upgrade_are_alike(rt: HostRuntime) -> Result<(), Fail> {
    let other = other()?;
    for state in &masters(rt.alloc())? {
        assert!(rt; !repeats(&upgrade_of(rt.alloc(), state, &other)?));
    }
    Ok(())
}

#[test]
fn no_two_steps_of_an_attended_upgrade_are_alike(rt: HostRuntime) -> Result<(), Fail> {
    let none = no_workers()?;
    for state in &masters(rt.alloc())? {
        assert!(rt; !repeats(&upgrade_planner::plan_attended(rt.alloc(), state, &none)?));
    }
    Ok(())
}
