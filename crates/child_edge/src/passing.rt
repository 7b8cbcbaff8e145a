//! Calls that the child master makes, and its ticks.
ghost use Rattle.std.specs.Prelude.{◌≡◌, ℕ, List, IsTrue, IfSome, codes, option_and_then, if◌then◌else◌};
ghost use Rattle.call_replies.specs.Replies.{is_listed};
ghost use Rattle.vocabulary.specs.declared.calls.Answer.{Answer as Answered};
ghost use Rattle.vocabulary.specs.declared.calls.Answer.TheVariants.{Counted};
ghost use Rattle.call_text.specs.CallText.{call_line};
ghost use Rattle.call_text.specs.SetReading.{set_of};
ghost use Rattle.plain_text.specs.Cuts.{after_prefix};
ghost use Rattle.plain_text.specs.Lines.{lines_of};
ghost use Rattle.child_family.specs.Told.{Hearing, Tells, said, heard};
ghost use Rattle.child_family.specs.Talk.{stops_child};
ghost use Rattle.child_edge.specs.State.{state_of};
ghost use Rattle.child_edge.specs.Each.{says_unless};
ghost use Rattle.child_edge.specs.Table.{Turn, alone, answers, answer_heard, lines_of_call, read_or, exchanged, passing, count_in, count_or, exchanged_tick, passing_tick};
ghost use Rattle.child_edge.specs.Turns.{GoesOn};

use crate::state::EdgeState;
use call_text::{read_answer, read_set, write_call};
use child_family::{Family, Heard, tick_line};
use listener_set::Numbers;
use plain_text::{Line, after_prefix, first_line};
use vocabulary::{Actor, Answer, Call};

/// Says each line of a text, up to the first that cannot be said. Whether all were said.
fn say_text<F: Family>(family: &mut F, id: u32, text: &[u8]) -> bool
    ensures { (otherwise next : Turn) → GoesOn (F.told family.old) (F.told family.new)
        (says_unless id (lines_of text.now) otherwise next) (if result then next else otherwise) }
{
    let mut rest = text;
    while !rest.is_empty() {
        let (line, more) = first_line(rest);
        if !family.say(id, line) {
            return false;
        }
        rest = more;
    }
    true
}

fn say_call<F: Family>(family: &mut F, id: u32, by: Actor, call: &Call) -> bool
    ensures { Tells (F.told family.old) (F.told family.new) (said id (call_line by call.now) result) }
{
    let mut line = Line::new();
    write_call(by, call, &mut line);
    family.say(id, line.bytes())
}

/// Says a call to a child, and with one that starts a master the handover. Whether all lines were said.
fn hand_over<F: Family>(family: &mut F, id: u32, by: Actor, call: &Call, text: &[u8]) -> bool
    ensures { (otherwise next : Turn) → GoesOn (F.told family.old) (F.told family.new)
        (says_unless id (lines_of_call text.now by call.now) otherwise next) (if result then next else otherwise) }
{
    if !say_call(family, id, by, call) {
        return false;
    }
    match call {
        Call::SpawnMaster(_) => say_text(family, id, text),
        _ => true,
    }
}

/// The answer that a child is heard to give, where the call lists it.
fn hear_answer<F: Family>(family: &mut F, id: u32, call: &Call) -> Option<Answer>
    ensures heard { (h : Hearing) × Tells (F.told family.old) (F.told family.new) (heard id h) × (result ≡ answer_heard call.now h) }
    ensures listed { IfSome result (λ a. IsTrue (is_listed call.now a)) }
{
    let mut line = Line::new();
    match family.hear(id, &mut line) {
        Heard::Line => read_answer(call, line.bytes()),
        Heard::TooLong | Heard::Ended => None,
    }
}

/// A call is said to a child, which answers it.
fn exchange<F: Family>(
    family: &mut F,
    id: u32,
    by: Actor,
    call: &Call,
    text: &[u8],
) -> Option<Answer>
    ensures goes { (otherwise : Turn) (read : Answered → Turn) → GoesOn (F.told family.old) (F.told family.new)
        (exchanged id by call.now text.now otherwise read) (read_or otherwise read result) }
    ensures listed { IfSome result (λ a. IsTrue (is_listed call.now a)) }
{
    if !hand_over(family, id, by, call, text) {
        return None;
    }
    hear_answer(family, id, call)
}

/// Stops a child master, and forgets it.
fn give_up<F: Family>(family: &mut F, state: &mut EdgeState, id: u32)
    ensures turn { (a : Answered) → GoesOn (F.told family.old) (F.told family.new) (stops_child id (answers (alone (state_of state.old)) a)) (answers (state_of state.new) a) }
    ensures workers { state.new.workers ≡ state.old.workers }
{
    family.stop(id);
    state.child = None;
}

/// The child master makes a call. Where there is none, its pipe fails, or it says no answer that the call lists, the
/// master is gone, and the child is stopped.
pub(crate) fn pass<F: Family>(
    family: &mut F,
    state: &mut EdgeState,
    by: Actor,
    call: &Call,
) -> Answer
    ensures turn { GoesOn (F.told family.old) (F.told family.new) (passing (state_of state.old) by call.now state.old.child) (answers (state_of state.new) result) }
    ensures listed { IsTrue (is_listed call.now result) }
    ensures workers { state.new.workers ≡ state.old.workers }
{
    let Some(master) = state.child else {
        return Answer::MasterGone;
    };
    if let Some(answer) = exchange(family, master.id, by, call, &state.text) {
        return answer;
    }
    give_up(family, state, master.id);
    Answer::MasterGone
}

/// The numbers that a count has: `counted SET`.
fn read_count(said: &[u8]) -> Option<Numbers>
    ensures { result ≡ option_and_then set_of (after_prefix (codes "counted ") said.now) }
{
    match after_prefix(said, b"counted ") {
        None => None,
        Some(rest) => read_set(rest),
    }
}

/// The numbers that a child is heard to count.
fn hear_count<F: Family>(family: &mut F, id: u32) -> Option<Numbers>
    ensures { (h : Hearing) × Tells (F.told family.old) (F.told family.new) (heard id h) × (result ≡ count_in h) }
{
    let mut line = Line::new();
    match family.hear(id, &mut line) {
        Heard::Line => read_count(line.bytes()),
        Heard::TooLong | Heard::Ended => None,
    }
}

/// A tick is said to a child, which answers with a count.
fn exchange_tick<F: Family>(family: &mut F, id: u32, now: u64) -> Option<Numbers>
    ensures { (otherwise : Turn) (read : List ℕ → Turn) → GoesOn (F.told family.old) (F.told family.new)
        (exchanged_tick id now otherwise read) (count_or otherwise read result) }
{
    if !family.say(id, tick_line(now).bytes()) {
        return None;
    }
    hear_count(family, id)
}

/// The child master ticks its workers, and counts those that beat. Where there is none, nobody beat; where its pipe fails,
/// or it says no count, the child is stopped besides.
pub(crate) fn pass_tick<F: Family>(family: &mut F, state: &mut EdgeState, now: u64) -> Numbers
    ensures turn { GoesOn (F.told family.old) (F.told family.new) (passing_tick (state_of state.old) now state.old.child) (answers (state_of state.new) (Counted result)) }
    ensures workers { state.new.workers ≡ state.old.workers }
{
    let Some(master) = state.child else {
        return Numbers::none();
    };
    if let Some(numbers) = exchange_tick(family, master.id, now) {
        return numbers;
    }
    give_up(family, state, master.id);
    Numbers::none()
}
