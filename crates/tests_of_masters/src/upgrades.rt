//! Upgrades, carried out on the modelled kernel.
ghost use Rattle.std.specs.Prelude.{◌≤◌};

use crate::setup::with_two_workers;
use kernel_model::{Pattern, Section};
use listener_set::{FilePath, Generation, Numbers};
use plan_executor::{EnactRefusal, enact};
use service_state::Record;
use std::alloc::Global;
use std::test::Fail;
use vocabulary::{Answer, Call, Entry, Fate, Name, Outcome, Settings, Target, Turn};
use word_runner::Enacted;
use worker_groups::Groups;

/// What comes of a plain upgrade of a master with two workers and a pid file, under a pattern.
fn upgraded(alloc: Global, pattern: Pattern) -> Result<Result<Enacted, EnactRefusal>, Fail> {
    upgraded_among(alloc, 65_535, false, Section::of(alloc, pattern))
}

/// What comes of an upgrade of such a master, attended or not, in a section, where so many processes may be.
fn upgraded_among(
    alloc: Global,
    processes: u32,
    is_attended: bool,
    section: Section,
) -> Result<Result<Enacted, EnactRefusal>, Fail> {
    let settings = Settings {
        workers: 2,
        groups: Groups::one(1, 2),
        pid: Some(FilePath::read(b"/run/a.pid")?),
        ..Settings::plain()
    };
    let target = if is_attended {
        Target::Attended(settings)
    } else {
        Target::Upgrade(settings)
    };
    let mut kernel = with_two_workers(alloc, &settings, processes)?;
    let state = Record::start(&settings, 2, &Numbers::below(2), 100);
    Ok(enact(alloc, &mut kernel, &state, &target, &section))
}

/// Whether the record that is left is of the master of the image and the process number.
fn is_left_to(state: Option<Record>, image: u32, pid: u32) -> bool {
    state.is_some_and(|state| state.generation.image == image && state.pid == pid)
}

#[test]
fn an_upgrade_leaves_the_new_master(rt: HostRuntime) -> Result<(), Fail> {
    let enacted = upgraded(rt.alloc(), Pattern::new(rt.alloc()))??;
    assert!(rt; enacted.report.outcome == Outcome::Done);
    assert_eq!(rt; enacted.log.len(), 18);
    assert!(rt; is_left_to(enacted.after, 2, 103));
    Ok(())
}

/// Whether the old master goes on, because of what was answered to the call of that number.
fn is_rolled_back(enacted: Enacted, cause: u32) -> bool {
    enacted.report.outcome == Outcome::RolledBack
        && enacted.report.cause == Some(cause)
        && is_left_to(enacted.after, 1, 100)
}

#[test]
fn an_upgrade_whose_new_master_dies_goes_back(rt: HostRuntime) -> Result<(), Fail> {
    let mut pattern = Pattern::new(rt.alloc());
    pattern.add_exit(15, Name::Master(2))?;
    let enacted = upgraded(rt.alloc(), pattern)??;
    assert!(rt; is_rolled_back(enacted, 15));
    Ok(())
}

#[test]
fn an_upgrade_names_the_master_that_executes(rt: HostRuntime) -> Result<(), Fail> {
    for (moment, image) in [(1, 1), (3, 1), (16, 1), (16, 2), (18, 2)] {
        let mut pattern = Pattern::new(rt.alloc());
        pattern.add_exit(moment, Name::Master(image))?;
        let refused = upgraded(rt.alloc(), pattern)?.err();
        assert!(rt;
            refused == Some(EnactRefusal::MasterNamed(moment)),
            "at {moment}"
        );
    }
    Ok(())
}

/// What comes of an attended upgrade that its operator ends at the second question, where so many processes may be.
fn ended_late(alloc: Global, processes: u32) -> Result<Enacted, Fail> {
    let mut pattern = Pattern::new(alloc);
    pattern.set_fate(16, Fate::Back)?;
    let section = Section::of(alloc, pattern);
    Ok(upgraded_among(alloc, processes, true, section)??)
}

/// Two masters with two workers each are six processes. The second way back needs no more of them.
#[test]
fn the_way_back_has_room_where_the_way_there_had_it(rt: HostRuntime) -> Result<(), Fail> {
    for (processes, cause, calls) in [(6, 16, 23), (5, 5, 9)] {
        let enacted = ended_late(rt.alloc(), processes)?;
        assert_eq!(rt; enacted.log.len(), calls);
        assert!(rt; is_rolled_back(enacted, cause), "among {processes}");
    }
    Ok(())
}

/// What comes of a plain upgrade in which old worker 1 exits before the call of that number, where five processes may be:
/// two masters, and three workers of both.
fn upgraded_short(alloc: Global, exit: u32, turns: &[Turn]) -> Result<Enacted, Fail>
    requires { 1 ≤ exit }
{
    let generation = Generation {
        image: 1,
        config: 1,
    };
    let mut pattern = Pattern::new(alloc);
    pattern.add_exit(exit, Name::Worker(generation, 1))?;
    let mut section = Section::of(alloc, pattern);
    for turn in turns {
        section.turns.add(*turn)?;
    }
    Ok(upgraded_among(alloc, 5, false, section)??)
}

/// Whether a master asked for a worker, and got none.
fn is_failed_fork(entry: &Entry, image: u32) -> bool {
    entry.by.0 == image && matches!(entry.call, Call::Fork(..)) && entry.answer != Answer::Forked
}

/// How many forks of a master were answered otherwise than by a worker.
fn failed_forks(enacted: &Enacted, image: u32) -> usize {
    let mut count: usize = 0;
    for place in 0..enacted.log.len() {
        if is_failed_fork(&enacted.log.get(place), image) {
            count = count.saturating_add(1);
        }
    }
    count
}

/// Whether the new master has taken over by so many calls, and something was answered to the call of that number.
fn is_done_after(enacted: &Enacted, cause: u32, calls: usize) -> bool {
    enacted.report.outcome == Outcome::Done
        && enacted.report.cause == Some(cause)
        && enacted.log.len() == calls
}

/// The place of the worker that the old master lost is taken by whoever starts one first.
#[test]
fn the_old_master_can_take_the_last_place(rt: HostRuntime) -> Result<(), Fail> {
    let enacted = upgraded_short(rt.alloc(), 3, &[Turn::Old; 4])?;
    assert!(rt; enacted.report.outcome == Outcome::RolledBack);
    assert_eq!(rt; enacted.log.len(), 12);
    assert_eq!(rt; failed_forks(&enacted, 1), 0);
    assert_eq!(rt; failed_forks(&enacted, 2), 1);
    Ok(())
}

#[test]
fn the_new_master_can_take_the_last_place(rt: HostRuntime) -> Result<(), Fail> {
    let turns = [Turn::New, Turn::Old, Turn::New, Turn::New, Turn::Old];
    let enacted = upgraded_short(rt.alloc(), 4, &turns)?;
    assert!(rt; is_done_after(&enacted, 4, 24));
    assert_eq!(rt; failed_forks(&enacted, 1), 3);
    assert_eq!(rt; failed_forks(&enacted, 2), 0);
    Ok(())
}
