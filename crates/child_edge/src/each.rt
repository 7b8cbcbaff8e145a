//! What is asked of several workers.
ghost use Rattle.std.specs.Prelude.{◌≡◌, ◌≤◌, ◌-◌, ℕ, Bool, List, [], vec_len, vec_capacity, codes, if◌then◌else◌};
ghost use Rattle.child_family.specs.Told.{Hearing, Tells, heard};
ghost use Rattle.child_family.specs.Talk.{hears, stops_child, awaits_child};
ghost use Rattle.child_family.specs.Lines.{is_line, is_going, beat_of};
ghost use Rattle.child_edge.specs.Each.{says_each, stops_each, counts_each, awaits_each, beats_each, beaten, with_beat};
ghost use Rattle.child_edge.specs.Table.{Turn};
ghost use Rattle.child_workers.specs.declared.worker.Worker.{Worker as Listed};
ghost use Rattle.child_edge.specs.Turns.{Begins, Finds, GoesOn};

use child_family::{Family, Heard, beat_start};
use child_workers::{Who, Worker};
use listener_set::Numbers;
use plain_text::Line;

/// Says a line to each worker that is meant, in order, whatever becomes of it.
pub(crate) fn say_each<F: Family>(family: &mut F, workers: &[Worker], who: Who, line: &[u8])
    ensures { Begins (F.told family.old) (F.told family.new) (says_each who line.now workers.now) }
{
    for worker in workers {
        if who.means(worker) {
            family.say(worker.id, line);
        }
    }
}

/// Stops each worker that is meant, in order.
pub(crate) fn stop_each<F: Family>(family: &mut F, workers: &[Worker], who: Who)
    ensures { Begins (F.told family.old) (F.told family.new) (stops_each who workers.now) }
{
    for worker in workers {
        if who.means(worker) {
            family.stop(worker.id);
        }
    }
}

/// Whether a child says `pong`; one that says anything else, or nothing more, is stopped.
fn is_there<F: Family>(family: &mut F, id: u32) -> bool
    ensures { (yes no : Turn)
        → GoesOn (F.told family.old) (F.told family.new) (hears id (λ h. if is_line (codes "pong") h then yes else stops_child id no)) (if result then yes else no) }
{
    let mut line = Line::new();
    let is_there = match family.hear(id, &mut line) {
        Heard::Line => line.bytes() == b"pong".as_slice(),
        Heard::TooLong | Heard::Ended => false,
    };
    if !is_there {
        family.stop(id);
    }
    is_there
}

/// Hears each worker that is meant, in order. One that does not say `pong` is stopped at once and taken out.
pub(crate) fn count_each<F: Family>(family: &mut F, workers: &mut Vec<Worker>, who: Who)
    ensures left { Finds (F.told family.old) (F.told family.new) (counts_each who [] workers.old.items) workers.new.items }
    ensures spare { vec_capacity workers.old - vec_len workers.old ≤ vec_capacity workers.new - vec_len workers.new }
{
    let mut at = 0;
    while at < workers.len() {
        let worker = workers[at];
        if !who.means(&worker) {
            at += 1;
        } else if is_there(family, worker.id) {
            at += 1;
        } else {
            workers.remove(at);
        }
    }
}

/// Whether a child says `gone`, or nothing more; it is then waited for.
fn is_gone<F: Family>(family: &mut F, id: u32) -> bool
    ensures { (yes no : Turn)
        → GoesOn (F.told family.old) (F.told family.new) (hears id (λ h. if is_going h then awaits_child id (λ ok. yes) else no)) (if result then yes else no) }
{
    let mut line = Line::new();
    let is_going = match family.hear(id, &mut line) {
        Heard::Line => line.bytes() == b"gone".as_slice(),
        Heard::TooLong => false,
        Heard::Ended => true,
    };
    if is_going {
        family.gone(id);
    }
    is_going
}

/// Hears each worker that is meant, in order. One that says `gone`, or nothing more, is waited for and taken out; with the
/// first that says something else it ends, and gives true.
pub(crate) fn await_each<F: Family>(family: &mut F, workers: &mut Vec<Worker>, who: Who) -> bool
    ensures left { Finds {B = List Listed × Bool} (F.told family.old) (F.told family.new)
        (λ rest. awaits_each who [] workers.old.items (λ left late. rest (left, late))) (workers.new.items, result) }
    ensures spare { vec_capacity workers.old - vec_len workers.old ≤ vec_capacity workers.new - vec_len workers.new }
{
    let mut at = 0;
    while at < workers.len() {
        let worker = workers[at];
        if !who.means(&worker) {
            at += 1;
        } else if is_gone(family, worker.id) {
            workers.remove(at);
        } else {
            return true;
        }
    }
    false
}

/// The start that a child's beat at a moment names, where it says one.
fn hear_beat<F: Family>(family: &mut F, id: u32, now: u64) -> Option<u32>
    ensures { (h : Hearing) × Tells (F.told family.old) (F.told family.new) (heard id h) × (result ≡ beat_of now h) }
{
    let mut line = Line::new();
    match family.hear(id, &mut line) {
        Heard::Line => beat_start(now, line.bytes()),
        Heard::TooLong | Heard::Ended => None,
    }
}

/// The numbers with that of a worker that has beaten.
fn with_beat(numbers: &mut Numbers, worker: &Worker, beat: Option<u32>)
    ensures { numbers.new ≡ with_beat beat worker.now numbers.old }
{
    if beat.is_some() {
        worker.add_number(numbers);
    }
}

/// A worker with the start that its beat named.
fn beaten(worker: &mut Worker, beat: Option<u32>)
    ensures { worker.new ≡ beaten beat worker.old }
{
    if beat.is_some() {
        worker.beat = beat;
    }
}

/// Hears each ready worker, in order. Gives the numbers of those that beat at the moment.
pub(crate) fn beat_each<F: Family>(family: &mut F, workers: &mut [Worker], now: u64) -> Numbers
    ensures { Finds {B = List Listed × List ℕ} (F.told family.old) (F.told family.new)
        (λ rest. beats_each now [] [] workers.old (λ ws numbers. rest (ws, numbers))) (workers.new, result) }
{
    let mut numbers = Numbers::none();
    for at in 0..workers.len() {
        let worker = workers[at];
        if Who::IsReady.means(&worker) {
            let beat = hear_beat(family, worker.id, now);
            with_beat(&mut numbers, &worker, beat);
            beaten(&mut workers[at], beat);
        }
    }
    numbers
}
