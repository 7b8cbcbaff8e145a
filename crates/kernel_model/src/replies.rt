//! What calls would be answered by themselves. Nothing is changed.
ghost use Rattle.std.specs.Prelude.{◌≡◌, ℕ, List, [], Option, None, if◌then◌else◌};
ghost use Rattle.std.specs.List.{list_any};
ghost use Rattle.std.specs.Option.{option_map};
ghost use Rattle.definitions.specs.Table.{is_active, is_worker, live_master};
ghost use Rattle.call_laws.specs.Pieces.{opened, forked, spawned, moved};
ghost use Rattle.definitions.specs.Calls.{census_of, own_step, step_with};
ghost use Rattle.call_laws.specs.Pieces.{adopted};
ghost use Rattle.call_laws.specs.Pieces.{asked_alive};
ghost use Rattle.definitions.specs.Run.{reply_of};
ghost use Rattle.handover_text.specs.Reading.{handed_by};
ghost use Rattle.kernel_rows.specs.Seen.{seen_caller};
ghost use Rattle.kernel_table.specs.Seen.{seen};
ghost use Rattle.kernel_table.specs.Names.{KnowsNames};

use crate::{Kernel, master_calls};
use kernel_rows::{Caller, Stances};
use kernel_table::{Store, files};
use listener_set::{Address, FilePath, Generation, Numbers};
use vocabulary::{Actor, Answer, Call, Reply};

fn open_reply(store: &Store, caller: &Caller, address: &Address) -> Reply
    ensures { result ≡ reply_of [] (opened (seen_caller store.now.addresses.items caller.now) address.now (seen store.now)).answer }
{
    if store.is_held(address) {
        return Reply::InUse;
    }
    if caller.holds.len() < store.limits.descriptors as usize {
        Reply::Opened
    } else {
        Reply::TooMany
    }
}

fn fork_reply(store: &Store, caller: &Caller, generation: Generation, nr: u32) -> Reply
    requires { KnowsNames store.now }
    ensures { (fds : Option (List ℕ)) → result ≡ reply_of [] (forked (seen_caller store.now.addresses.items caller.now) generation nr fds (seen store.now)).answer }
{
    if store.is_borne(caller.worker(generation, nr)) {
        return Reply::Again;
    }
    if store.has_process_room() {
        Reply::Forked
    } else {
        Reply::Again
    }
}

fn spawn_reply(store: &Store, caller: &Caller, image: u32) -> Reply
    ensures { result ≡ reply_of [] (spawned (seen_caller store.now.addresses.items caller.now) image (seen store.now)).answer }
{
    if store.has_master(image) {
        return Reply::Again;
    }
    if store.has_process_room() {
        Reply::Spawned
    } else {
        Reply::Again
    }
}

/// The one reply where the worker is Starting or Ready, and else the other.
fn worker_reply(
    store: &Store,
    caller: &Caller,
    generation: Generation,
    nr: u32,
    active: Reply,
    other: Reply,
) -> Reply
    ensures { result ≡ (if list_any (is_worker is_active caller.now.number generation nr) (seen store.now).rows then active else other) }
{
    if store.has_worker(Stances::Active, caller.worker(generation, nr)) {
        active
    } else {
        other
    }
}

fn adopt_reply(store: &Store, image: u32, caller: &Caller, text: &[u8]) -> Reply
    ensures { result ≡ reply_of [] (adopted (handed_by text.now) image (seen_caller store.now.addresses.items caller.now) (seen store.now)).answer }
{
    match master_calls::adopt(store, image, caller, text) {
        Answer::Adopted => Reply::Adopted,
        _ => Reply::Refused,
    }
}

fn move_reply(store: &Store, from: &FilePath, to: &FilePath) -> Reply
    ensures { result ≡ reply_of [] (moved from.now to.now (seen store.now)).answer }
{
    let _ = to;
    match files::owner_at(&store.files, from) {
        Some(_) => Reply::Fine,
        None => Reply::IoFault,
    }
}

fn alive_reply(store: &Store, image: u32) -> Reply
    ensures { result ≡ reply_of [] (asked_alive (live_master image (seen store.now).rows) image (seen store.now)).answer }
{
    match store.live_master(image) {
        Some(_) => Reply::IsAlive,
        None => Reply::Gone,
    }
}

/// What an edge tells apart of the call's own answer, to a caller that lives.
fn own_reply(store: &Store, image: u32, caller: &Caller, call: &Call, text: &[u8]) -> Reply
    requires { KnowsNames store.now }
    ensures { result ≡ reply_of [] (own_step (handed_by text.now) image (seen_caller store.now.addresses.items caller.now) call.now (seen store.now)).answer }
{
    match call {
        Call::OpenAt(address) => open_reply(store, caller, address),
        Call::Fork(generation, nr, _) => fork_reply(store, caller, *generation, *nr),
        Call::AwaitReady(generation, nr) => worker_reply(
            store,
            caller,
            *generation,
            *nr,
            Reply::IsReady,
            Reply::Gone,
        ),
        Call::AwaitGone(generation, nr) => worker_reply(
            store,
            caller,
            *generation,
            *nr,
            Reply::Late,
            Reply::Gone,
        ),
        Call::Census(_) => Reply::Full,
        Call::SpawnMaster(started) => spawn_reply(store, caller, *started),
        Call::Adopt => adopt_reply(store, image, caller, text),
        Call::MovePid(from, to) => move_reply(store, from, to),
        Call::Alive(asked) => alive_reply(store, *asked),
        Call::Ask(_) => Reply::Go,
        Call::CloseAt(_)
        | Call::Quit(_, _)
        | Call::Kill(_, _)
        | Call::WritePid(_)
        | Call::RemovePid(_)
        | Call::Leave
        | Call::Usr1(_, _)
        | Call::TermMaster(_) => Reply::Fine,
    }
}

impl Kernel {
    /// What an edge tells apart of the answer that a call would have by itself: no exit comes before it, and no fate
    /// makes it fail. A census is full.
    pub fn own_reply(&self, by: Actor, call: &Call, text: &[u8]) -> Reply
        ensures { result ≡ reply_of [] (step_with (handed_by text.now) by call.now None self.now.table).answer }
    {
        match self.store.live_master(by.0) {
            Some(caller) => own_reply(&self.store, by.0, &caller, call, text),
            None => Reply::MasterGone,
        }
    }

    /// The numbers of the Ready workers that the live master of an image has in the generation.
    pub fn ready(&self, by: Actor, generation: Generation) -> Option<Numbers>
        ensures { result ≡ option_map (λ c. census_of c.number generation self.now.table.rows) (live_master by self.now.table.rows) }
    {
        let master = self.store.live_master(by.0)?;
        Some(self.store.ready_numbers(master.number, generation))
    }
}
