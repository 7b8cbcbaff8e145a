//! What can go wrong at a call.
ghost use Rattle.std.specs.Prelude.{◌≡◌, ◌++◌, ◌∷◌, [], map, IfOk, OnOk};
ghost use Rattle.std.specs.List.{filter, filter_map};
ghost use Rattle.definitions.specs.Table.{is_active};
ghost use Rattle.definitions.specs.Calls.{after_exits};
ghost use Rattle.handover_text.specs.Reading.{handed_by};
ghost use Rattle.kernel_model.specs.Readers.{row_of};
ghost use Rattle.plan_executor.specs.Naming.{listed};
ghost use Rattle.vocabulary.specs.Fates.{all_fates};
ghost use Rattle.explorer.specs.Events.{takes_effect, exit_of, mishaps_at, waiting};

use crate::events::Mishap;
use call_replies::reply_to;
use kernel_model::Kernel;
use kernel_pattern::Moment;
use kernel_rows::Row;
use listener_set::{Numbers, WORKER_LIMIT};
use plan_executor::reserved_copy;
use plan_walk::Due;
use std::alloc::{AllocError, Global};
use vocabulary::{Actor, Call, Fate, Name, Stance};

/// A copy of a kernel that had room for as many calls, or has made some of them: so no number is lacking, only memory can be.
pub(crate) fn copied(kernel: &Kernel, calls: u32) -> Result<Kernel, AllocError>
    ensures { IfOk result (λ k. k ≡ record { table = kernel.now.table; room = calls }) }
{
    match reserved_copy(kernel, calls) {
        Ok(copy) => Ok(copy),
        Err(_) => Err(AllocError),
    }
}

/// Whether a fate changes what a call is answered.
fn takes_effect(
    kernel: &Kernel,
    by: Actor,
    call: &Call,
    text: &[u8],
    fate: Fate,
) -> Result<bool, AllocError>
    ensures { IfOk result (λ yes. yes ≡ takes_effect (handed_by text.now) by call.now kernel.now.table fate) }
{
    let mut copy = copied(kernel, 1)?;
    let moment = Moment {
        exits: &[],
        fate: Some(fate),
    };
    let answer = copy.call(by, call, text, &moment);
    Ok(reply_to(&answer, &Numbers::none()) != kernel.own_reply(by, call, text))
}

/// The exit of a process, where it matters while this master has yet to take over: that of one with a higher number than `above`.
fn exit_of(row: &Row, heir: Option<u32>, above: u32) -> Option<Mishap>
    ensures { result ≡ exit_of (listed heir) above row.now }
{
    match *row {
        Row::Worker {
            number,
            generation,
            nr,
            stance,
            ..
        } => {
            if is_active(stance) && nr < WORKER_LIMIT && above < number {
                Some(Mishap::Exit(Name::Worker(generation, nr), number))
            } else {
                None
            }
        }
        Row::Master {
            number,
            image,
            live,
            ..
        } => {
            if live && heir == Some(image) && above < number {
                Some(Mishap::Exit(Name::Master(image), number))
            } else {
                None
            }
        }
        Row::Foreign { .. } => None,
    }
}

fn is_active(stance: Stance) -> bool
    ensures { result ≡ is_active stance }
{
    match stance {
        Stance::Starting | Stance::Ready => true,
        Stance::Draining | Stance::Exited => false,
    }
}

/// The master that has yet to take over, at a call and after it.
pub(crate) fn waiting(call: &Call, heir: Option<u32>) -> Option<u32>
    ensures { listed result ≡ waiting call.now (listed heir) }
{
    match call {
        Call::Leave => None,
        _ => heir,
    }
}

pub(crate) fn push<T: Copy>(items: &mut Vec<T>, item: T) -> Result<(), AllocError>
    ensures { OnOk result (items.new.items ≡ items.old.items ++ item ∷ []) }
{
    items.push(item)?;
    Ok(())
}

/// Adds the exits that matter. A kernel with 2^32 processes or more would want memory.
fn add_exits(
    kernel: &Kernel,
    heir: Option<u32>,
    above: u32,
    mishaps: &mut Vec<Mishap>,
) -> Result<(), AllocError>
    ensures { OnOk result (mishaps.new.items ≡ mishaps.old.items ++ filter_map (exit_of (listed heir) above) (map row_of kernel.now.table.rows)) }
{
    for place in 0..u32::MAX as usize {
        let Some(row) = kernel.row(place) else {
            return Ok(());
        };
        if let Some(mishap) = exit_of(&row, heir, above) {
            push(mishaps, mishap)?;
        }
    }
    Err(AllocError)
}

/// Adds the failures of a call that take effect.
fn add_fates(
    kernel: &Kernel,
    by: Actor,
    call: &Call,
    text: &[u8],
    mishaps: &mut Vec<Mishap>,
) -> Result<(), AllocError>
    ensures { OnOk result (mishaps.new.items ≡ mishaps.old.items ++ map Mishap.Fail (filter (takes_effect (handed_by text.now) by call.now kernel.now.table) all_fates)) }
{
    for fate in &Fate::ALL {
        if takes_effect(kernel, by, call, text, *fate)? {
            push(mishaps, Mishap::Fail(*fate))?;
        }
    }
    Ok(())
}

/// What can go wrong at a call, while this master has yet to take over. Only processes with a higher number than `above` exit.
pub(crate) fn mishaps_at(
    alloc: Global,
    kernel: &Kernel,
    due: &Due,
    text: &[u8],
    heir: Option<u32>,
    above: u32,
) -> Result<Vec<Mishap>, AllocError>
    ensures { IfOk result (λ mishaps. mishaps.items ≡ mishaps_at (handed_by text.now) due.now.by due.now.call (listed heir) above kernel.now.table) }
{
    let mut mishaps = Vec::new(alloc);
    add_exits(kernel, heir, above, &mut mishaps)?;
    add_fates(kernel, due.by, &due.call, text, &mut mishaps)?;
    Ok(mishaps)
}

/// The kernel after these exits. Exits come with a call, so it makes one that asks for a master and changes nothing.
pub(crate) fn after_exits(kernel: &Kernel, by: Actor, exits: &[Name]) -> Result<Kernel, AllocError>
    ensures { IfOk result (λ k. k.table ≡ after_exits exits.now kernel.now.table) }
{
    let mut copy = copied(kernel, 1)?;
    let moment = Moment { exits, fate: None };
    copy.call(by, &Call::Alive(by.0), &[], &moment);
    Ok(copy)
}
