//! What a record says of the table, held against it.
ghost use Rattle.std.specs.Prelude.{ℕ, List, ◌≡◌, ◌↔◌, IsTrue, map, count_by, ◌<◌};
ghost use Rattle.std.specs.Bool.{OnTrue};
ghost use Rattle.listener_set.specs.Numbers.{is_in};
ghost use Rattle.vocabulary.specs.Settings.{HasSuffixRoom};
ghost use Rattle.definitions.specs.Table.{is_master};
ghost use Rattle.definitions.specs.Master.{Agrees, FilesAre, IsRunning};
ghost use Rattle.kernel_rows.specs.Holds.{seen_holds};
ghost use Rattle.kernel_rows.specs.Seen.{seen_caller, seen_holder, seen_rows};
ghost use Rattle.kernel_table.specs.Seen.{seen, seen_file};
ghost use Rattle.kernel_agreement.specs.Agreement.{running, AreRunning, AreReady, MasterAgrees, WorkersAgree};

use kernel_model::{Kernel, are_listeners};
use kernel_rows::{Caller, Holder, Holders, Row, Stances, holds};
use kernel_table::files::owner_at;
use kernel_table::{FileRow, Store};
use listener_set::{
    DescriptorTable, FIRST_DESCRIPTOR, FilePath, Generation, MOST_DESCRIPTORS, Numbers,
    WORKER_LIMIT,
};
use vocabulary::{Listener, PidNote, Stance};
use worker_groups::Crew;

/// What a master's record says of the table.
#[derive(Clone, Copy, Debug)]
pub struct Running<'a> {
    /// In ascending descriptors.
    pub listeners: &'a [Listener],
    /// What the workers run, and where those of each group listen.
    pub crew: Crew,
    /// The numbers of the Ready workers.
    pub ready: Numbers,
    /// Where the pid file is to stand.
    pub pid_path: Option<FilePath>,
    pub note: PidNote,
    /// The master's process number.
    pub pid: u32,
}

/// How many masters there are, live or exited.
fn master_count(holders: &Holders) -> usize
    ensures { (addresses : List (List ℕ)) → result ≡ count_by is_master (seen_rows addresses holders.now.items) }
{
    holders
        .iter()
        .filter(|holder| holder.row.is_master())
        .count()
}

/// Whether two processes hold the same sockets under the same descriptors.
fn same_holds(holds: &DescriptorTable, others: &DescriptorTable) -> bool
    ensures { IsTrue result ↔ (holds.now ≡ others.now) }
{
    // (only a reading tells that descriptors rise)
    if holds.get(FIRST_DESCRIPTOR) != others.get(FIRST_DESCRIPTOR) {
        return false;
    }
    for descriptor in FIRST_DESCRIPTOR..FIRST_DESCRIPTOR + MOST_DESCRIPTORS as u32 {
        if holds.get(descriptor) != others.get(descriptor) {
            return false;
        }
    }
    true
}

/// Whether a process, if it is a worker of the master, is not Starting and, where it is Ready, is of the crew's generation
/// and holds its group's share of what the master holds.
fn is_running(holder: &Holder, master: &Caller, crew: &Crew) -> bool
    ensures { (addresses : List (List ℕ)) → IsTrue result ↔ IsRunning master.now.number crew.now (seen_holds addresses master.now.holds) (seen_holder addresses holder.now) }
{
    match holder.row {
        Row::Worker {
            parent,
            generation,
            nr,
            stance,
            ..
        } if parent == master.number => match stance {
            Stance::Starting => false,
            Stance::Ready => {
                let share = holds::shared(&master.holds, crew.posts.given(nr));
                generation == crew.generation && same_holds(&holder.holds, &share)
            }
            Stance::Draining | Stance::Exited => true,
        },
        _ => true,
    }
}

/// Whether each process is so.
fn are_running(holders: &Holders, master: &Caller, crew: &Crew) -> bool
    ensures { (addresses : List (List ℕ)) → IsTrue result ↔ AreRunning master.now.number crew.now (seen_holds addresses master.now.holds) (seen_rows addresses holders.now.items) }
{
    for holder in holders.iter() {
        if !is_running(holder, master, crew) {
            return false;
        }
    }
    true
}

/// Whether a set has a number, which may be 1024 or more.
fn has_number(numbers: &Numbers, nr: u32) -> bool
    ensures value { result ≡ is_in numbers.now nr }
    ensures below { OnTrue result (nr < WORKER_LIMIT) }
{
    numbers.next_from(nr) == Some(nr)
}

/// Whether these are the numbers of the master's Ready workers in the generation.
fn are_ready(holders: &Holders, pid: u32, generation: Generation, ready: &Numbers) -> bool
    ensures { (addresses : List (List ℕ)) → IsTrue result ↔ AreReady pid generation (seen_rows addresses holders.now.items) ready.now }
{
    let mut missing = *ready;
    for holder in holders.iter() {
        if let Some(nr) = holder.row.worker_number(Stances::Ready, pid, generation) {
            if !has_number(ready, nr) {
                return false;
            }
            missing.remove(nr);
        }
    }
    missing.is_empty()
}

/// Whether the files are as the note says.
fn files_are(files: &[FileRow], note: PidNote, path: Option<FilePath>, pid: u32) -> bool
    requires { HasSuffixRoom path }
    ensures { IsTrue result ↔ FilesAre note path pid (map seen_file files.now) }
{
    let Some(path) = path else {
        return note == PidNote::NoFile;
    };
    let own = owner_at(files, &path);
    let beside = owner_at(files, &path.oldbin());
    match note {
        PidNote::InPlace => own == Some(pid) && beside.is_none(),
        PidNote::AtOldbin => beside == Some(pid),
        PidNote::OldbinLeft => own == Some(pid) && beside.is_some(),
        PidNote::Left | PidNote::NoFile => false,
    }
}

/// Whether the master is the record's, the only one, and listens where the record says.
fn master_agrees(store: &Store, master: &Caller, claim: &Running<'_>) -> bool
    ensures { IsTrue result ↔ MasterAgrees (seen store.now).rows (seen_caller store.now.addresses.items master.now) claim.now }
{
    master.number == claim.pid
        && master_count(&store.holders) == 1
        && are_listeners(&store.addresses, &master.holds, claim.listeners)
}

/// Whether the master's workers are the record's.
fn workers_agree(store: &Store, master: &Caller, claim: &Running<'_>) -> bool
    ensures { IsTrue result ↔ WorkersAgree (seen store.now).rows (seen_caller store.now.addresses.items master.now) claim.now }
{
    are_running(&store.holders, master, &claim.crew)
        && are_ready(
            &store.holders,
            master.number,
            claim.crew.generation,
            &claim.ready,
        )
}

/// Whether the table is as a record says: it has one master row, live, with the generation's image and the process
/// number; its descriptors are exactly the listeners; of its workers none is Starting, the Ready ones are exactly those
/// of the generation with the ready numbers, each holding its group's share of what the master holds; and the files are
/// as the note says. The path of the pid file has at most 100 bytes.
pub fn agrees_with(kernel: &Kernel, claim: &Running<'_>) -> bool
    requires { HasSuffixRoom claim.now.pid_path }
    ensures { (wanted retries timeout : ℕ) → IsTrue result ↔ Agrees kernel.now.table (running claim.now wanted retries timeout) }
{
    let store = kernel.store();
    match store.live_master(claim.crew.generation.image) {
        Some(master) => {
            master_agrees(store, &master, claim)
                && workers_agree(store, &master, claim)
                && files_are(&store.files, claim.note, claim.pid_path, claim.pid)
        }
        None => false,
    }
}
