//! Calls: what each is answered, and what it changes.
ghost use Rattle.std.specs.Prelude.{◌≡◌, ℕ, List};
ghost use Rattle.std.specs.List.{list_any};
ghost use Rattle.definitions.specs.Table.{Table, Caller as LiveMaster, is_worker};
ghost use Rattle.call_laws.specs.Pieces.{opened, forked, awaited, awaited_gone, moved};
ghost use Rattle.definitions.specs.Calls.{own_step, fault_of, step_with};
ghost use Rattle.call_laws.specs.Pieces.{closed, quitted, killed, counted, written, unlinked};
ghost use Rattle.std.specs.Bool.{then_some};
ghost use Rattle.handover_text.specs.Reading.{handed_by};
ghost use Rattle.kernel_rows.specs.Seen.{seen_caller, has_stance};
ghost use Rattle.kernel_table.specs.Seen.{seen};
ghost use Rattle.kernel_table.specs.Room.{GrowsByOne, HasRoomFor, IsKept};
ghost use Rattle.kernel_table.specs.Rows.{IsOwn};
ghost use Rattle.kernel_table.specs.Names.{KnowsNames};

use crate::master_calls;
use kernel_rows::{Caller, Edit, Stances, holds};
use kernel_table::{Store, files};
use listener_set::{Address, DescriptorSet, FilePath, Generation};
use vocabulary::{Answer, Call, Fate};

/// A new socket at the caller's lowest free descriptor, unless somebody holds the address or the caller has as many
/// descriptors as it may.
fn open(store: &mut Store, caller: &Caller, address: &Address) -> Answer
    requires room { HasRoomFor 1 store.old }
    requires kept { IsKept (seen store.old) }
    requires own { IsOwn store.old caller.now }
    ensures outcome { record { answer = result; table = seen store.new } ≡ opened (seen_caller store.old.addresses.items caller.now) address.now (seen store.old) }
    ensures grows { GrowsByOne store.old store.new }
{
    if store.is_held(address) {
        return Answer::InUse;
    }
    if caller.holds.len() < store.limits.descriptors as usize {
        Answer::Opened(store.add_socket(caller, address))
    } else {
        Answer::TooMany
    }
}

/// The caller and its workers lose their holds of the address.
fn close(store: &mut Store, caller: &Caller, address: &Address) -> Answer
    ensures outcome { record { answer = result; table = seen store.new } ≡ closed (seen_caller store.old.addresses.items caller.now) address.now (seen store.old) }
    ensures grows { GrowsByOne store.old store.new }
{
    store.edit(&Edit::Close(caller.number, *address));
    Answer::Fine
}

/// A new Starting worker with the caller's holds, those of the set or all, unless the name is borne or the process limit
/// is reached.
fn fork(
    store: &mut Store,
    caller: &Caller,
    generation: Generation,
    nr: u32,
    descriptors: Option<DescriptorSet>,
) -> Answer
    requires room { HasRoomFor 1 store.old }
    requires names { KnowsNames store.old }
    ensures outcome { record { answer = result; table = seen store.new } ≡ forked (seen_caller store.old.addresses.items caller.now) generation nr descriptors (seen store.old) }
    ensures grows { GrowsByOne store.old store.new }
{
    let name = caller.worker(generation, nr);
    if store.is_borne(name) {
        return Answer::Again;
    }
    if !store.has_process_room() {
        return Answer::Again;
    }
    store.add_worker(name, holds::shared(&caller.holds, descriptors));
    Answer::Forked
}

/// A Starting worker is Ready from then on; where none is active, the Exited ones of the name leave.
fn await_ready(store: &mut Store, caller: &Caller, generation: Generation, nr: u32) -> Answer
    requires { IsKept (seen store.old) }
    ensures outcome { record { answer = result; table = seen store.new } ≡ awaited (seen_caller store.old.addresses.items caller.now) generation nr (seen store.old) }
    ensures grows { GrowsByOne store.old store.new }
{
    let name = caller.worker(generation, nr);
    if store.edit_active(name, &Edit::MakeReady(name)) {
        Answer::IsReady
    } else {
        store.edit(&Edit::Reap(name));
        Answer::Gone
    }
}

/// The Starting or Ready worker of the name drains.
fn quit(store: &mut Store, caller: &Caller, generation: Generation, nr: u32) -> Answer
    requires { IsKept (seen store.old) }
    ensures outcome { record { answer = result; table = seen store.new } ≡ quitted (seen_caller store.old.addresses.items caller.now) generation nr (seen store.old) }
    ensures grows { GrowsByOne store.old store.new }
{
    let name = caller.worker(generation, nr);
    let _ = store.edit_active(name, &Edit::Drain(name));
    Answer::Fine
}

/// The workers of the name leave, in any stance.
fn kill(store: &mut Store, caller: &Caller, generation: Generation, nr: u32) -> Answer
    requires { KnowsNames store.old }
    ensures outcome { record { answer = result; table = seen store.new } ≡ killed (seen_caller store.old.addresses.items caller.now) generation nr (seen store.old) }
    ensures grows { GrowsByOne store.old store.new }
{
    store.remove(caller.worker(generation, nr));
    Answer::Fine
}

/// The numbers of the Ready workers; the Exited ones of every generation leave.
fn census(store: &mut Store, caller: &Caller, generation: Generation) -> Answer
    ensures outcome { record { answer = result; table = seen store.new } ≡ counted (seen_caller store.old.addresses.items caller.now) generation (seen store.old) }
    ensures grows { GrowsByOne store.old store.new }
{
    let numbers = store.ready_numbers(caller.number, generation);
    store.edit(&Edit::ReapAll(caller.number));
    Answer::Counted(numbers)
}

/// Late while a worker of the name is Starting or Ready; else all of the name leave.
fn await_gone(store: &mut Store, caller: &Caller, generation: Generation, nr: u32) -> Answer
    requires { KnowsNames store.old }
    ensures outcome { record { answer = result; table = seen store.new } ≡ awaited_gone (seen_caller store.old.addresses.items caller.now) generation nr (seen store.old) }
    ensures grows { GrowsByOne store.old store.new }
{
    if store.dismiss(caller.worker(generation, nr)) {
        Answer::Gone
    } else {
        Answer::Late
    }
}

/// The file has the caller's process number.
fn write_pid(store: &mut Store, caller: &Caller, path: &FilePath) -> Answer
    requires { HasRoomFor 1 store.old }
    ensures outcome { record { answer = result; table = seen store.new } ≡ written (seen_caller store.old.addresses.items caller.now) path.now (seen store.old) }
    ensures grows { GrowsByOne store.old store.new }
{
    files::write(&mut store.files, path, caller.number);
    Answer::Fine
}

/// The second path has the number of the first, which is gone; a fault where the first isn't there.
fn move_pid(store: &mut Store, from: &FilePath, to: &FilePath) -> Answer
    requires { HasRoomFor 1 store.old }
    ensures outcome { record { answer = result; table = seen store.new } ≡ moved from.now to.now (seen store.old) }
    ensures grows { GrowsByOne store.old store.new }
{
    let Some(owner) = files::owner_at(&store.files, from) else {
        return Answer::IoFault;
    };
    files::remove(&mut store.files, from);
    files::write(&mut store.files, to, owner);
    Answer::Fine
}

/// The file is gone, also where it wasn't there.
fn remove_pid(store: &mut Store, path: &FilePath) -> Answer
    ensures outcome { record { answer = result; table = seen store.new } ≡ unlinked path.now (seen store.old) }
    ensures grows { GrowsByOne store.old store.new }
{
    files::remove(&mut store.files, path);
    Answer::Fine
}

/// The call's own answer, to a caller that lives, of that image, which is handed that text.
fn own_answer(store: &mut Store, image: u32, caller: &Caller, call: &Call, text: &[u8]) -> Answer
    requires room { HasRoomFor 1 store.old }
    requires kept { IsKept (seen store.old) }
    requires names { KnowsNames store.old }
    requires own { IsOwn store.old caller.now }
    ensures outcome { record { answer = result; table = seen store.new } ≡ own_step (handed_by text.now) image (seen_caller store.old.addresses.items caller.now) call.now (seen store.old) }
    ensures grows { GrowsByOne store.old store.new }
{
    match call {
        Call::OpenAt(address) => open(store, caller, address),
        Call::CloseAt(address) => close(store, caller, address),
        Call::Fork(generation, nr, descriptors) => fork(
            store,
            caller,
            *generation,
            *nr,
            *descriptors,
        ),
        Call::AwaitReady(generation, nr) => await_ready(store, caller, *generation, *nr),
        Call::Quit(generation, nr) => quit(store, caller, *generation, *nr),
        Call::Kill(generation, nr) => kill(store, caller, *generation, *nr),
        Call::Census(generation) => census(store, caller, *generation),
        Call::AwaitGone(generation, nr) => await_gone(store, caller, *generation, *nr),
        Call::SpawnMaster(started) => master_calls::spawn(store, caller, *started),
        Call::Adopt => master_calls::adopt(store, image, caller, text),
        Call::WritePid(path) => write_pid(store, caller, path),
        Call::MovePid(from, to) => move_pid(store, from, to),
        Call::RemovePid(path) => remove_pid(store, path),
        Call::Alive(asked) => master_calls::ask_alive(store, *asked),
        Call::Leave => master_calls::leave(store, caller),
        Call::Usr1(_, _) => Answer::Fine,
        Call::Ask(_) => Answer::Go,
        Call::TermMaster(ended) => master_calls::terminate(store, *ended),
    }
}

/// What a fate makes of an opening.
fn open_fault(fate: Fate) -> Option<Answer>
    ensures { (c : LiveMaster) (a : List ℕ) (t : Table) → result ≡ fault_of c (Call.OpenAt a) fate t }
{
    match fate {
        Fate::InUse => Some(Answer::InUse),
        Fate::TooMany => Some(Answer::TooMany),
        Fate::Denied => Some(Answer::Denied),
        Fate::NoMemory => Some(Answer::NoMemory),
        _ => None,
    }
}

/// What a fate makes of the start of a master.
fn spawn_fault(fate: Fate) -> Option<Answer>
    ensures { (c : LiveMaster) (image : ℕ) (t : Table) → result ≡ fault_of c (Call.SpawnMaster image) fate t }
{
    match fate {
        Fate::Again => Some(Answer::Again),
        Fate::NoMemory => Some(Answer::NoMemory),
        Fate::NoImage => Some(Answer::NoImage),
        _ => None,
    }
}

/// The fault that the fate gives at the call. One that is not the call's, or whose condition does not hold, gives none.
fn fault_of(store: &Store, caller: &Caller, call: &Call, fate: Fate) -> Option<Answer>
    ensures { result ≡ fault_of (seen_caller store.now.addresses.items caller.now) call.now fate (seen store.now) }
{
    match call {
        Call::OpenAt(_) => open_fault(fate),
        Call::Fork(_, _, _) => match fate {
            Fate::Again => Some(Answer::Again),
            Fate::NoMemory => Some(Answer::NoMemory),
            _ => None,
        },
        Call::AwaitReady(generation, nr) => match fate {
            Fate::Late => late(store, caller, Stances::Starting, *generation, *nr),
            _ => None,
        },
        Call::AwaitGone(generation, nr) => match fate {
            Fate::Late => late(store, caller, Stances::Draining, *generation, *nr),
            _ => None,
        },
        Call::SpawnMaster(_) => spawn_fault(fate),
        Call::Adopt => match fate {
            Fate::Refused => Some(Answer::Refused),
            _ => None,
        },
        Call::WritePid(_) | Call::MovePid(_, _) | Call::RemovePid(_) => match fate {
            Fate::IoFault => Some(Answer::IoFault),
            _ => None,
        },
        Call::Ask(_) => match fate {
            Fate::Back => Some(Answer::Back),
            _ => None,
        },
        Call::CloseAt(_)
        | Call::Quit(_, _)
        | Call::Kill(_, _)
        | Call::Census(_)
        | Call::Alive(_)
        | Call::Leave
        | Call::Usr1(_, _)
        | Call::TermMaster(_) => None,
    }
}

/// Late, where a worker of the name is in one of the stances.
fn late(
    store: &Store,
    caller: &Caller,
    stances: Stances,
    generation: Generation,
    nr: u32,
) -> Option<Answer>
    ensures { result ≡ then_some (list_any (is_worker (has_stance stances) caller.now.number generation nr) (seen store.now).rows) Answer.Late }
{
    let name = caller.worker(generation, nr);
    if store.has_worker(stances, name) {
        Some(Answer::Late)
    } else {
        None
    }
}

/// A call by the master of an image, after the exits of its moment: that the master is gone, then the fault of a fate, then
/// the call's own answer.
pub fn answered(
    store: &mut Store,
    image: u32,
    call: &Call,
    text: &[u8],
    fate: Option<Fate>,
) -> Answer
    requires room { HasRoomFor 1 store.old }
    requires kept { IsKept (seen store.old) }
    requires names { KnowsNames store.old }
    ensures outcome { record { answer = result; table = seen store.new } ≡ step_with (handed_by text.now) image call.now fate (seen store.old) }
    ensures grows { GrowsByOne store.old store.new }
{
    let Some(caller) = store.caller(image) else {
        return Answer::MasterGone;
    };
    if let Some(fate) = fate {
        if let Some(fault) = fault_of(store, &caller, call, fate) {
            return fault;
        }
    }
    own_answer(store, image, &caller, call, text)
}
