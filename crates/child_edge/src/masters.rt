//! The calls about masters.
ghost use Rattle.std.specs.Prelude.{◌≡◌, ◌≤◌, ◌-◌, IsTrue, vec_len, vec_capacity, codes, if◌then◌else◌};
ghost use Rattle.child_family.specs.Talk.{says, hears};
ghost use Rattle.child_family.specs.Lines.{is_line};
ghost use Rattle.call_replies.specs.Replies.{is_listed};
ghost use Rattle.vocabulary.specs.declared.calls.Call.TheVariants.{SpawnMaster, Alive, TermMaster};
ghost use Rattle.child_edge.specs.State.{state_of};
ghost use Rattle.child_edge.specs.Table.{Turn, answers, spawning, living, terminating};
ghost use Rattle.child_edge.specs.Turns.{GoesOn};

use crate::saying::say_text;
use crate::state::{ChildMaster, EdgeState};
use child_family::{Family, Heard, Role, StartFault};
use child_workers::drop_id;
use plain_text::Line;
use vocabulary::Answer;

/// Starts a master, and says the lines of the handover to it. Where there is a child master the family is not asked.
pub(crate) fn spawn<F: Family>(family: &mut F, state: &mut EdgeState, image: u32) -> Answer
    ensures turn { GoesOn (F.told family.old) (F.told family.new) (spawning (state_of state.old) image state.old.child) (answers (state_of state.new) result) }
    ensures listed { IsTrue (is_listed (SpawnMaster image) result) }
    ensures spare { vec_capacity state.old.workers - vec_len state.old.workers ≤ vec_capacity state.new.workers - vec_len state.new.workers }
{
    if state.child.is_some() {
        return Answer::Again;
    }
    let id = match family.start(&Role::Master { image }) {
        Ok(id) => id,
        Err(StartFault::NoMemory) => return Answer::NoMemory,
        Err(StartFault::Again) => return Answer::Again,
        Err(StartFault::NoImage) => return Answer::NoImage,
    };
    say_text(family, id, &state.text);
    drop_id(&mut state.workers, id);
    state.child = Some(ChildMaster { image, id });
    Answer::Spawned
}

/// Whether a child master says that it lives.
fn answers_alive<F: Family>(family: &mut F, id: u32) -> bool
    ensures { (yes no : Turn) → GoesOn (F.told family.old) (F.told family.new)
        (says id (codes "alive") (λ ok. if ok then hears id (λ h. if is_line (codes "alive") h then yes else no) else no)) (if result then yes else no) }
{
    if !family.say(id, b"alive") {
        return false;
    }
    let mut line = Line::new();
    match family.hear(id, &mut line) {
        Heard::Line => line.bytes() == b"alive".as_slice(),
        Heard::TooLong | Heard::Ended => false,
    }
}

/// Asks whether the child master of an image lives; one that does not say so is stopped.
pub(crate) fn alive<F: Family>(family: &mut F, state: &mut EdgeState, image: u32) -> Answer
    ensures turn { GoesOn (F.told family.old) (F.told family.new) (living (state_of state.old) image state.old.child) (answers (state_of state.new) result) }
    ensures listed { IsTrue (is_listed (Alive image) result) }
    ensures workers { state.new.workers ≡ state.old.workers }
{
    let Some(master) = state.child else {
        return Answer::Gone;
    };
    if master.image != image {
        return Answer::Gone;
    }
    if answers_alive(family, master.id) {
        return Answer::IsAlive;
    }
    family.stop(master.id);
    state.child = None;
    Answer::Gone
}

/// Stops the child master of an image.
pub(crate) fn terminate<F: Family>(family: &mut F, state: &mut EdgeState, image: u32) -> Answer
    ensures turn { GoesOn (F.told family.old) (F.told family.new) (terminating (state_of state.old) image state.old.child) (answers (state_of state.new) result) }
    ensures listed { IsTrue (is_listed (TermMaster image) result) }
    ensures workers { state.new.workers ≡ state.old.workers }
{
    let Some(master) = state.child else {
        return Answer::Fine;
    };
    if master.image != image {
        return Answer::Fine;
    }
    family.stop(master.id);
    state.child = None;
    Answer::Fine
}
