//! Plans that are drawn up by hand, as they are numbered, written and drawn.
use listener_set::{Generation, Numbers};
use plan_text::{write_graph, write_plan};
use rollback_plan::{Bound, Draft, Next, Plan, PlanEdge};
use std::alloc::{AllocError, Global};
use std::test::Fail;
use vocabulary::{Actor, Answer, Call, End, Order, PidNote, Reply, Side, Sides};
use worker_groups::{Crew, Group, Groups, Posts};

const FIRST: Generation = Generation {
    image: 1,
    config: 1,
};

/// The workers of a service of one group.
fn first_crew() -> Crew {
    Crew {
        generation: FIRST,
        posts: Posts::first(&Groups::one(1, 2)),
    }
}

/// One group on either side.
fn sole_sides() -> Sides {
    Sides {
        old: Groups::one(1, 2),
        target: Groups::one(1, 3),
    }
}

/// One worker more: a fork, the wait for it, and the count at the end.
fn one_worker_more(alloc: Global) -> Result<Plan, Fail> {
    let mut draft = Draft::new(alloc);
    let by = Actor(1);
    let counted = draft.add(
        by,
        Order::Make(Call::Census(FIRST)),
        &Numbers::below(3),
        &[
            PlanEdge::over(&[Reply::Full], End::Done),
            PlanEdge::over(&[Reply::Short], End::ShortTarget),
        ],
    )?;
    let waited = draft.add(
        by,
        Order::Make(Call::AwaitReady(FIRST, 2)),
        &Numbers::none(),
        &[
            PlanEdge::over(&[Reply::Late, Reply::Gone], End::ShortOld),
            PlanEdge::to(&[Reply::IsReady], counted),
        ],
    )?;
    let forked = draft.add(
        by,
        Order::Make(Call::Fork(FIRST, 2, None)),
        &Numbers::none(),
        &[
            PlanEdge::over(&[Reply::NoMemory], End::RolledBack),
            PlanEdge::to(&[Reply::Forked], waited),
            PlanEdge::over(&[Reply::Again], End::RolledBack),
        ],
    )?;
    Ok(draft.finish(forked, PidNote::NoFile, &sole_sides(), Vec::new(alloc))?)
}

/// A count, and where it is short a kill of the missing worker, which sets the pid note.
fn a_settle(alloc: Global) -> Result<Plan, Fail> {
    let mut draft = Draft::new(alloc);
    let edges = [
        PlanEdge {
            replies: &[Reply::Fine, Reply::MasterGone],
            note: Some(PidNote::Left),
            next: Next::Over(End::Done),
        },
        PlanEdge::over(&[Reply::IoFault], End::Done),
    ];
    let order = Order::KillLacking(FIRST);
    let killed = draft.add(Actor(2), order, &Numbers::none(), &edges)?;
    let counted = draft.add(
        Actor(2),
        Order::Make(Call::Census(FIRST)),
        &Numbers::none(),
        &[
            PlanEdge::over(&[Reply::Full], End::Done),
            PlanEdge::to(&[Reply::Short], killed),
        ],
    )?;
    Ok(draft.finish(counted, PidNote::InPlace, &sole_sides(), Vec::new(alloc))?)
}

/// A count of each of two masters, and a fork of what is lacking by the first.
fn counts_of_two_masters(alloc: Global) -> Result<Plan, Fail> {
    let count = Order::Make(Call::Census(FIRST));
    let mut draft = Draft::new(alloc);
    let forked = draft.add(
        Actor(1),
        Order::ForkLacking(first_crew()),
        &Numbers::none(),
        &[PlanEdge::over(&[Reply::Forked, Reply::Again, Reply::NoMemory], End::Done)],
    )?;
    let second = draft.add(
        Actor(2),
        count,
        &Numbers::below(2),
        &[
            PlanEdge::over(&[Reply::Full], End::Done),
            PlanEdge::to(&[Reply::Short], forked),
        ],
    )?;
    let first = draft.add(
        Actor(1),
        count,
        &Numbers::below(3),
        &[
            PlanEdge::over(&[Reply::Full], End::Done),
            PlanEdge::to(&[Reply::Short], second),
        ],
    )?;
    Ok(draft.finish(first, PidNote::InPlace, &sole_sides(), Vec::new(alloc))?)
}

/// A draft with a count that no other step will lead to.
fn with_unused(alloc: Global) -> Result<Draft, Fail> {
    let mut draft = Draft::new(alloc);
    draft.settle(Actor(1), &first_crew(), &Numbers::none(), Side::Target, 0)?;
    Ok(draft)
}

/// A fork whose worker quits again, a count that two paths lead to, and one that none leads to.
fn two_ways(alloc: Global) -> Result<Plan, Fail> {
    let none = Numbers::none();
    let crew = first_crew();
    let mut draft = with_unused(alloc)?;
    let end = draft.settle(Actor(1), &crew, &none, Side::Old, 0)?;
    let quit = draft.call(Actor(1), Call::Quit(FIRST, 7), end)?;
    let first = draft.add(
        Actor(1),
        Order::Make(Call::Fork(FIRST, 7, None)),
        &none,
        &[
            PlanEdge::to(&[Reply::Again, Reply::NoMemory], end),
            PlanEdge::to(&[Reply::Forked], quit),
        ],
    )?;
    Ok(draft.finish(first, PidNote::InPlace, &sole_sides(), Vec::new(alloc))?)
}

/// The workers of two groups: 0 and 1 at one address, and 2 at two others.
fn two_crews() -> Result<Crew, Fail> {
    let mut groups = Groups::one(1, 2);
    groups.add(Group {
        addresses: 2,
        workers: 1,
    })?;
    Ok(Crew {
        generation: FIRST,
        posts: Posts::first(&groups),
    })
}

/// The worker of the second group, and a settle with one round of starts.
fn one_more_of_two_groups(alloc: Global) -> Result<Plan, Fail> {
    let crew = two_crews()?;
    let groups = *crew.posts.groups();
    let sides = Sides {
        old: groups,
        target: groups,
    };
    let by = Actor(1);
    let mut draft = Draft::new(alloc);
    let settled = draft.settle(by, &crew, &Numbers::below(3), Side::Target, 1)?;
    let forked = draft.add(
        by,
        Order::Make(Call::Fork(FIRST, 2, crew.posts.given(2))),
        &Numbers::none(),
        &[
            PlanEdge::to(&[Reply::Forked], settled),
            PlanEdge::over(&[Reply::Again, Reply::NoMemory], End::RolledBack),
        ],
    )?;
    Ok(draft.finish(forked, PidNote::NoFile, &sides, Vec::new(alloc))?)
}

/// Replies that lead to one place are joined, in the order of the table of calls.
const ONE_WORKER_MORE: &[u8] = b"plan steps 3 longest 3\n\
    1 m1 fork 1.1 2 | forked 2 | again no-memory rolled-back\n\
    2 m1 await-ready 1.1 2 | ready 3 | gone late degraded-old\n\
    3 m1 census 1.1 set 0-2 | full done | short degraded-target\n";

/// The steps of a settle name no number, and an edge that sets the pid note says so.
const A_SETTLE: &[u8] = b"plan steps 2 longest 2\n\
    1 m2 census 1.1 set none | full done | short 2\n\
    2 m2 kill 1.1 missing | ok master-gone done pid left\n";

/// A step that two paths lead to stands after both, and one that no path leads to is not there.
const TWO_WAYS: &[u8] = b"plan steps 3 longest 3\n\
    1 m1 fork 1.1 7 | forked 2 | again no-memory 3\n\
    2 m1 quit 1.1 7 | ok 3\n\
    3 m1 census 1.1 set none | full rolled-back | short degraded-old\n";

/// A fork names the descriptors of its worker's group; that of a settle says that it will.
const TWO_GROUPS: &[u8] = b"plan steps 6 longest 6\n\
    1 m1 fork 1.1 2 fds 4-5 | forked 2 | again no-memory rolled-back\n\
    2 m1 census 1.1 set 0-2 | full done | short 3\n\
    3 m1 fork 1.1 missing fds group | forked 4 | again no-memory 6\n\
    4 m1 await-ready 1.1 missing | ready gone 6 | late 5\n\
    5 m1 kill 1.1 missing | ok 6\n\
    6 m1 census 1.1 set 0-2 | full done | short degraded-target\n";

/// Whether a plan is written so.
fn is_written(alloc: Global, plan: &Plan, text: &[u8]) -> Result<bool, AllocError> {
    Ok(write_plan(alloc, plan)?.as_slice() == text)
}

#[test]
fn plans_are_numbered_and_written(rt: HostRuntime) -> Result<(), Fail> {
    let plan = one_worker_more(rt.alloc())?;
    assert!(rt; is_written(rt.alloc(), &plan, ONE_WORKER_MORE)?);
    Ok(())
}

#[test]
fn a_settle_is_written_without_numbers_of_workers(rt: HostRuntime) -> Result<(), Fail> {
    let plan = a_settle(rt.alloc())?;
    assert!(rt; is_written(rt.alloc(), &plan, A_SETTLE)?);
    Ok(())
}

#[test]
fn a_step_is_written_behind_all_that_lead_to_it(rt: HostRuntime) -> Result<(), Fail> {
    let plan = two_ways(rt.alloc())?;
    assert!(rt; is_written(rt.alloc(), &plan, TWO_WAYS)?);
    Ok(())
}

#[test]
fn a_fork_is_written_with_the_descriptors_of_its_group(rt: HostRuntime) -> Result<(), Fail> {
    let plan = one_more_of_two_groups(rt.alloc())?;
    assert!(rt; is_written(rt.alloc(), &plan, TWO_GROUPS)?);
    Ok(())
}

/// The first master forks worker 2, which its own count lacked, and not worker 0, which the other's lacked.
#[test]
fn each_master_names_what_its_own_count_lacked(rt: HostRuntime) -> Result<(), Fail> {
    let plan = counts_of_two_masters(rt.alloc())?;
    let mut bound = Bound::new();
    if let Some(count) = plan.get(1) {
        bound.take(count, &Answer::Counted(Numbers::below(2)));
    }
    if let Some(count) = plan.get(2) {
        bound.take(count, &Answer::Counted(Numbers::none()));
    }
    let Some(fork) = plan.get(3) else {
        panic!(rt; "no third step");
    };
    assert!(rt; bound.call(fork) == Call::Fork(FIRST, 2, None));
    Ok(())
}

const MORE_DRAWN: &[u8] = b"digraph plan {\n\
    \x20 node [fontname=monospace];\n\
    \x20 edge [fontname=monospace];\n\
    \x20 1 [shape=box, label=\"1 m1 fork 1.1 2\"];\n\
    \x20 1 -> \"2\" [label=\"forked\\l\", weight=9, style=bold];\n\
    \x20 1 -> \"rolled-back\" [label=\"again\\lno-memory\\l\"];\n\
    \x20 2 [shape=box, label=\"2 m1 await-ready 1.1 2\"];\n\
    \x20 2 -> \"3\" [label=\"ready\\l\", weight=9, style=bold];\n\
    \x20 2 -> \"degraded-old\" [label=\"gone\\llate\\l\"];\n\
    \x20 3 [shape=box, label=\"3 m1 census 1.1 set 0-2\"];\n\
    \x20 3 -> \"done\" [label=\"full\\l\", weight=9, style=bold];\n\
    \x20 3 -> \"degraded-target\" [label=\"short\\l\"];\n\
    }\n";

const SETTLE_DRAWN: &[u8] = b"digraph plan {\n\
    \x20 node [fontname=monospace];\n\
    \x20 edge [fontname=monospace];\n\
    \x20 1 [shape=box, label=\"1 m2 census 1.1 set none\"];\n\
    \x20 1 -> \"done\" [label=\"full\\l\", weight=9, style=bold];\n\
    \x20 1 -> \"2\" [label=\"short\\l\"];\n\
    \x20 2 [shape=box, label=\"2 m2 kill 1.1 missing\"];\n\
    \x20 2 -> \"done\" [label=\"ok\\lmaster-gone\\lpid left\\l\", weight=9, style=bold];\n\
    }\n";

/// Whether a plan is drawn so.
fn is_drawn(alloc: Global, plan: &Plan, text: &[u8]) -> Result<bool, AllocError> {
    Ok(write_graph(alloc, plan)?.as_slice() == text)
}

#[test]
fn plans_are_drawn_with_a_box_for_each_step(rt: HostRuntime) -> Result<(), Fail> {
    let more = one_worker_more(rt.alloc())?;
    assert!(rt; is_drawn(rt.alloc(), &more, MORE_DRAWN)?);
    let settle = a_settle(rt.alloc())?;
    assert!(rt; is_drawn(rt.alloc(), &settle, SETTLE_DRAWN)?);
    Ok(())
}
