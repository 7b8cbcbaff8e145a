//! The calls about workers.
ghost use Rattle.std.specs.Prelude.{◌≡◌, ◌≤◌, ◌<◌, ◌-◌, ◌+◌, IsTrue, vec_len, vec_capacity, codes};
ghost use Rattle.call_replies.specs.Replies.{is_listed};
ghost use Rattle.vocabulary.specs.declared.calls.Call.TheVariants.{Quit, Kill, Census, AwaitGone, Usr1, Leave};
ghost use Rattle.child_edge.specs.State.{state_of};
ghost use Rattle.child_edge.specs.Table.{answers, quitting, killing, counting, awaiting, gone_or_late, leaving};
ghost use Rattle.child_edge.specs.Each.{says_each};
ghost use Rattle.child_workers.specs.Workers.{without, moved, numbers_of, at_stage, means};
ghost use Rattle.child_edge.specs.Turns.{GoesOn};

use crate::each::{await_each, count_each, say_each, stop_each};
use crate::state::EdgeState;
use child_family::Family;
use child_workers::{Stage, Who, Worker};
use listener_set::{Generation, Numbers};
use vocabulary::Answer;

/// Moves those that are meant to a stage.
fn move_each(workers: &mut [Worker], who: Who, stage: Stage)
    ensures { workers.new ≡ moved who stage workers.old }
{
    for worker in workers.iter_mut() {
        if who.means(worker) {
            worker.stage = stage;
        }
    }
}

/// Takes those that are meant out.
fn drop_each(workers: &mut Vec<Worker>, who: Who)
    ensures left { workers.new.items ≡ without who workers.old.items }
    ensures spare { vec_capacity workers.old - vec_len workers.old ≤ vec_capacity workers.new - vec_len workers.new }
{
    workers.retain(|worker| !who.means(worker));
}

/// The numbers below 1024 of those that are meant.
fn numbers_of(workers: &[Worker], who: Who) -> Numbers
    ensures { result ≡ numbers_of who workers.now }
{
    let mut numbers = Numbers::none();
    for worker in workers {
        if who.means(worker) {
            worker.add_number(&mut numbers);
        }
    }
    numbers
}

/// Tells a worker to quit.
pub(crate) fn quit<F: Family>(
    family: &mut F,
    state: &mut EdgeState,
    generation: Generation,
    nr: u32,
) -> Answer
    ensures turn { GoesOn (F.told family.old) (F.told family.new) (quitting (state_of state.old) generation nr) (answers (state_of state.new) result) }
    ensures listed { IsTrue (is_listed (Quit generation nr) result) }
    ensures spare { vec_capacity state.old.workers - vec_len state.old.workers ≤ vec_capacity state.new.workers - vec_len state.new.workers }
{
    let who = Who::ServingNamed(generation, nr);
    say_each(family, &state.workers, who, b"quit");
    move_each(&mut state.workers, who, Stage::Draining);
    Answer::Fine
}

/// Tells a worker to open its logs anew.
pub(crate) fn usr1<F: Family>(
    family: &mut F,
    state: &EdgeState,
    generation: Generation,
    nr: u32,
) -> Answer
    ensures turn { GoesOn (F.told family.old) (F.told family.new)
        (says_each (Who.ServingNamed generation nr) (codes "usr1") state.now.workers.items (answers (state_of state.now) Answer.Fine))
        (answers (state_of state.now) result) }
    ensures listed { IsTrue (is_listed (Usr1 generation nr) result) }
{
    say_each(
        family,
        &state.workers,
        Who::ServingNamed(generation, nr),
        b"usr1",
    );
    Answer::Fine
}

/// Stops each worker of a name.
pub(crate) fn kill<F: Family>(
    family: &mut F,
    state: &mut EdgeState,
    generation: Generation,
    nr: u32,
) -> Answer
    ensures turn { GoesOn (F.told family.old) (F.told family.new) (killing (state_of state.old) generation nr) (answers (state_of state.new) result) }
    ensures listed { IsTrue (is_listed (Kill generation nr) result) }
    ensures spare { vec_capacity state.old.workers - vec_len state.old.workers ≤ vec_capacity state.new.workers - vec_len state.new.workers }
{
    let who = Who::Named(generation, nr);
    stop_each(family, &state.workers, who);
    drop_each(&mut state.workers, who);
    Answer::Fine
}

/// Counts the ready workers of a generation: each is asked, and then each is heard.
pub(crate) fn census<F: Family>(
    family: &mut F,
    state: &mut EdgeState,
    generation: Generation,
) -> Answer
    ensures turn { GoesOn (F.told family.old) (F.told family.new) (counting (state_of state.old) generation) (answers (state_of state.new) result) }
    ensures listed { IsTrue (is_listed (Census generation) result) }
    ensures spare { vec_capacity state.old.workers - vec_len state.old.workers ≤ vec_capacity state.new.workers - vec_len state.new.workers }
{
    let who = Who::ReadyOf(generation);
    say_each(family, &state.workers, who, b"ping");
    count_each(family, &mut state.workers, who);
    Answer::Counted(numbers_of(&state.workers, who))
}

fn gone_or_late(is_late: bool) -> Answer
    ensures { result ≡ gone_or_late is_late }
{
    if is_late { Answer::Late } else { Answer::Gone }
}

/// Waits for the end of each worker of a name, up to the first that is late.
pub(crate) fn await_gone<F: Family>(
    family: &mut F,
    state: &mut EdgeState,
    generation: Generation,
    nr: u32,
) -> Answer
    ensures turn { GoesOn (F.told family.old) (F.told family.new) (awaiting (state_of state.old) generation nr) (answers (state_of state.new) result) }
    ensures listed { IsTrue (is_listed (AwaitGone generation nr) result) }
    ensures spare { vec_capacity state.old.workers - vec_len state.old.workers ≤ vec_capacity state.new.workers - vec_len state.new.workers }
{
    let is_late = await_each(family, &mut state.workers, Who::Named(generation, nr));
    gone_or_late(is_late)
}

/// The edge's own master leaves: its workers are stopped.
pub(crate) fn leave<F: Family>(family: &mut F, state: &mut EdgeState) -> Answer
    ensures turn { GoesOn (F.told family.old) (F.told family.new) (leaving (state_of state.old)) (answers (state_of state.new) result) }
    ensures listed { IsTrue (is_listed Leave result) }
    ensures spare { vec_capacity state.old.workers - vec_len state.old.workers ≤ vec_capacity state.new.workers - vec_len state.new.workers }
{
    stop_each(family, &state.workers, Who::Any);
    state.workers.clear();
    state.left = true;
    Answer::Fine
}
