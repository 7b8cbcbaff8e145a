//! What an entry shows of the moment before its call.
ghost use Rattle.std.specs.Prelude.{◌≡◌, ◌≤◌, ◌==◌, ℕ, List, map, None, false, OnOk, IfSome, if◌then◌else◌};
ghost use Rattle.definitions.specs.Calls.{Handed};
ghost use Rattle.call_laws.specs.Pieces.{quiet};
ghost use Rattle.handover_text.specs.Reading.{handed_by};
ghost use Rattle.kernel_model.specs.Pattern.{moment_at, IsNameWithin};
ghost use Rattle.certifier.specs.Shown.{fate_of, awaited_one, found_gone, named, is_count, moment_shown};

use call_replies::reply_to;
use kernel_model::{Kernel, Pattern};
use listener_set::{Generation, Numbers, WORKER_LIMIT};
use std::alloc::AllocError;
use vocabulary::{Actor, Answer, Call, Entry, Fate, Name};

/// The fate that makes a call fail so.
fn fate_of(answer: &Answer) -> Option<Fate>
    ensures { result ≡ fate_of answer.now }
{
    match answer {
        Answer::InUse => Some(Fate::InUse),
        Answer::TooMany => Some(Fate::TooMany),
        Answer::Denied => Some(Fate::Denied),
        Answer::NoMemory => Some(Fate::NoMemory),
        Answer::Again => Some(Fate::Again),
        Answer::Late => Some(Fate::Late),
        Answer::NoImage => Some(Fate::NoImage),
        Answer::Refused => Some(Fate::Refused),
        Answer::IoFault => Some(Fate::IoFault),
        Answer::Back => Some(Fate::Back),
        _ => None,
    }
}

/// The worker that is waited for, or the master that is asked about.
fn awaited_one(call: &Call) -> Option<Name>
    ensures name { named result ≡ awaited_one call.now }
    ensures within { IfSome result IsNameWithin }
{
    match *call {
        Call::Alive(image) => Some(Name::Master(image)),
        Call::AwaitReady(generation, nr) => {
            if nr < WORKER_LIMIT {
                Some(Name::Worker(generation, nr))
            } else {
                None
            }
        }
        _ => None,
    }
}

/// Who is found gone by an answer.
fn found_gone(by: Actor, call: &Call, answer: &Answer) -> Option<Name>
    ensures name { named result ≡ found_gone by call.now answer.now }
    ensures within { IfSome result IsNameWithin }
{
    match answer {
        Answer::MasterGone => Some(Name::Master(by.0)),
        Answer::Gone => awaited_one(call),
        _ => None,
    }
}

/// Gives a quiet moment an exit and a fate.
fn add(
    pattern: &mut Pattern,
    number: u32,
    gone: Option<Name>,
    fate: Option<Fate>,
) -> Result<(), AllocError>
    requires number { 1 ≤ number }
    requires quiet { moment_at pattern.old number ≡ quiet }
    requires within { IfSome gone IsNameWithin }
    ensures { OnOk result ((n : ℕ) → moment_at pattern.new n ≡ (if n == number then record { exits = named gone; fate = fate } else moment_at pattern.old n)) }
{
    if let Some(name) = gone {
        pattern.add_exit(number, name)?;
    }
    if let Some(fate) = fate {
        pattern.set_fate(number, fate)?;
    }
    Ok(())
}

/// Gives a quiet moment the exits of some workers.
fn add_workers(
    pattern: &mut Pattern,
    number: u32,
    generation: Generation,
    workers: &Numbers,
) -> Result<(), AllocError>
    requires number { 1 ≤ number }
    requires quiet { moment_at pattern.old number ≡ quiet }
    ensures { OnOk result ((n : ℕ) → moment_at pattern.new n ≡ (if n == number then record { exits = map (Name.Worker generation) workers.now; fate = None } else moment_at pattern.old n)) }
{
    for nr in workers.iter() {
        pattern.add_exit(number, Name::Worker(generation, nr))?;
    }
    Ok(())
}

/// Adds the exits of the workers that a census does not count.
fn show_uncounted(
    kernel: &Kernel,
    number: u32,
    by: Actor,
    call: &Call,
    counted: &Numbers,
    pattern: &mut Pattern,
) -> Result<(), AllocError>
    requires number { 1 ≤ number }
    requires quiet { moment_at pattern.old number ≡ quiet }
    ensures { (handed : Handed) → OnOk result ((n : ℕ) → moment_at pattern.new n ≡ (if n == number then moment_shown handed kernel.now.table (record { by = by; call = call.now; answer = Answer.Counted counted.now }) else moment_at pattern.old n)) }
{
    let Call::Census(generation) = *call else {
        return Ok(());
    };
    let Some(ready) = kernel.ready(by, generation) else {
        return Ok(());
    };
    add_workers(pattern, number, generation, &ready.minus(counted))
}

/// Who is found gone, and the fault, where the call isn't answered so by itself.
fn fault_shown(kernel: &Kernel, text: &[u8], entry: &Entry) -> (Option<Name>, Option<Fate>)
    requires { is_count entry.now.answer ≡ false }
    ensures shown { moment_shown (handed_by text.now) kernel.now.table entry.now ≡ record { exits = named result.0; fate = result.1 } }
    ensures within { IfSome result.0 IsNameWithin }
{
    let gone = found_gone(entry.by, &entry.call, &entry.answer);
    let fate = fate_of(&entry.answer);
    if gone.is_none() && fate.is_none() {
        return (None, None);
    }
    let own = kernel.own_reply(entry.by, &entry.call, text);
    if own == reply_to(&entry.answer, &Numbers::none()) {
        return (None, None);
    }
    (gone, fate)
}

/// Adds to a pattern what an entry shows on the kernel before it.
pub(crate) fn show(
    kernel: &Kernel,
    text: &[u8],
    number: u32,
    entry: &Entry,
    pattern: &mut Pattern,
) -> Result<(), AllocError>
    requires number { 1 ≤ number }
    requires quiet { moment_at pattern.old number ≡ quiet }
    ensures { OnOk result ((n : ℕ) → moment_at pattern.new n ≡ (if n == number then moment_shown (handed_by text.now) kernel.now.table entry.now else moment_at pattern.old n)) }
{
    match &entry.answer {
        Answer::Counted(counted) => {
            show_uncounted(kernel, number, entry.by, &entry.call, counted, pattern)
        }
        _ => {
            let (gone, fate) = fault_shown(kernel, text, entry);
            add(pattern, number, gone, fate)
        }
    }
}
