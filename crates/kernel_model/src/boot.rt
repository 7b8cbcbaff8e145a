//! How a kernel starts.
ghost use Rattle.std.specs.Prelude.{◌≡◌, ◌<◌, ◌≤◌, ◌↔◌, ℕ, List, map, IfOk, IsTrue};
ghost use Rattle.kernel_rows.specs.Holds.{seen_holds};
ghost use Rattle.kernel_rows.specs.Seen.{seen_holder, seen_rows};
ghost use Rattle.kernel_table.specs.Seen.{seen, seen_file};
ghost use Rattle.kernel_table.specs.Room.{IsSound};
ghost use Rattle.call_laws.specs.Start.{booted, first_worker, first_rows, first_files};
ghost use Rattle.kernel_model.specs.Boot.{first_pairs, AreBadLimits};

use kernel_rows::{Holder, Holders, Row, holds};
use kernel_table::{FileRow, FreeNames, Store};
use listener_set::{DescriptorTable, FilePath, Generation, MOST_DESCRIPTORS, WORKER_LIMIT};
use std::alloc::{AllocError, Global};
use std::error::Error;
use std::fmt;
use vocabulary::{Limits, Settings, Stance};
use worker_groups::Posts;

/// How many masters and workers a kernel may allow at most.
pub const MOST_PROCESSES: u32 = 65_535;

/// The widest limits that a kernel may have: as many processes and descriptors as can be.
pub const WIDEST_LIMITS: Limits = Limits {
    processes: MOST_PROCESSES,
    descriptors: MOST_DESCRIPTORS as u32,
};

/// Why no kernel is started.
#[derive(Clone, Copy, Debug, PartialEq, Eq)]
pub enum BootRefusal {
    /// B1: the limits do not allow the start.
    BadLimits,
    /// Memory was refused.
    Memory,
}

impl BootRefusal {
    ghost use Rattle.kernel_model.specs.Codes.{boot_code};

    /// The code of the refusal, as it is printed; of want of memory `memory`.
    pub fn code(&self) -> &'static str
        ensures { result.now ≡ boot_code self.now }
    {
        match self {
            BootRefusal::BadLimits => "B1",
            BootRefusal::Memory => "memory",
        }
    }
}

/// Printed as its code.
impl fmt::Display for BootRefusal {
    ghost use Rattle.std.specs.Prelude.{Some};
    ghost use Rattle.kernel_model.specs.Codes.{boot_code};

    ghost output = { λ refusal. Some (boot_code refusal) };

    fn fmt<W: fmt::Write>(&self, f: &mut fmt::Formatter<W>) -> fmt::Result {
        f.write_str(self.code())
    }
}

impl Error for BootRefusal {}

/// Whether the limits do not allow a start with so many listeners and workers.
pub fn are_bad(listeners: usize, workers: u32, limits: Limits) -> bool
    ensures { IsTrue result ↔ AreBadLimits listeners workers limits }
{
    WORKER_LIMIT < workers
        || limits.processes < 1 + workers
        || MOST_PROCESSES < limits.processes
        || (limits.descriptors as usize) < listeners
        || MOST_DESCRIPTORS < limits.descriptors as usize
}

/// The first sockets, from number 1 on, under the descriptors from 3 on.
fn first_holds(count: u32) -> DescriptorTable
    requires { count ≤ MOST_DESCRIPTORS }
    ensures { result ≡ first_pairs count }
{
    let mut holds = DescriptorTable::new();
    for socket in 0..count {
        let _ = holds.put(socket + 1);
    }
    holds
}

/// The master and its Ready workers, each with its group's share of the holds.
fn holders(
    alloc: Global,
    posts: &Posts,
    holds: &DescriptorTable,
    workers: u32,
) -> Result<Vec<Holder>, AllocError>
    requires { workers ≤ WORKER_LIMIT }
    ensures { (addresses : List (List ℕ)) → IfOk result (λ v. seen_rows addresses v.items ≡ first_rows posts.now (seen_holds addresses holds.now) workers) }
{
    let mut holders = Vec::new(alloc);
    holders.push(Holder {
        row: Row::Master {
            number: 100,
            parent: 1,
            image: 1,
            live: true,
        },
        holds: *holds,
    })?;
    for nr in 0..workers {
        holders.push(first_worker(posts, holds, nr))?;
    }
    Ok(holders)
}

fn first_worker(posts: &Posts, holds: &DescriptorTable, nr: u32) -> Holder
    requires { nr < WORKER_LIMIT }
    ensures { (addresses : List (List ℕ)) → seen_holder addresses result ≡ first_worker posts.now (seen_holds addresses holds.now) nr }
{
    let row = Row::Worker {
        number: 101 + nr,
        parent: 100,
        generation: Generation {
            image: 1,
            config: 1,
        },
        nr,
        stance: Stance::Ready,
    };
    Holder {
        row,
        holds: holds::shared(holds, posts.given(nr)),
    }
}

/// The pid file, where there is one.
fn files(alloc: Global, pid_file: Option<FilePath>) -> Result<Vec<FileRow>, AllocError>
    ensures { IfOk result (λ v. map seen_file v.items ≡ first_files pid_file) }
{
    let mut files = Vec::new(alloc);
    if let Some(path) = pid_file {
        files.push(FileRow { path, owner: 100 })?;
    }
    Ok(files)
}

/// The rows of a start that the limits allow, with room for no call.
pub fn first_store(
    alloc: Global,
    settings: &Settings,
    workers: u32,
    limits: Limits,
) -> Result<Store, AllocError>
    requires few { workers ≤ WORKER_LIMIT }
    requires most { limits.descriptors ≤ MOST_DESCRIPTORS }
    ensures table { IfOk result (λ s. seen s ≡ booted settings.now.listeners settings.now.groups workers settings.now.pid limits) }
    ensures sound { IfOk result (λ s. IsSound 0 s) }
{
    let listeners = &settings.listeners;
    let holds = first_holds(listeners.len() as u32);
    let slots = holders(alloc, &Posts::first(&settings.groups), &holds, workers)?;
    let holders = Holders::of(slots);
    let free = FreeNames::among(
        &holders,
        100,
        Generation {
            image: 1,
            config: 1,
        },
    );
    Ok(Store {
        holders,
        addresses: Vec::from_slice(alloc, listeners.as_slice())?,
        files: files(alloc, settings.pid)?,
        next_process: 101 + u64::from(workers),
        limits,
        last: 0,
        newest: 0,
        free,
        lone: None,
    })
}
