//! The rows of the table, and the few ways to read and change them.
ghost use Rattle.std.specs.Prelude.{true, false, not, if◌then◌else◌, ◌≡◌, ◌<◌, ◌≤◌, ◌+◌, ◌^◌, ◌↔◌, ℕ, List, length, count_by, Contains, IsTrue, IsFalse, IfOk, IfSome, Some, None, OnOk, vec_len, vec_capacity};
ghost use Rattle.std.specs.List.{list_any, filter_map, slice_get};
ghost use Rattle.std.specs.Option.{option_map};
ghost use Rattle.definitions.specs.Table.{Master, Worker, is_active, is_worker, is_own, is_held, live_master};
ghost use Rattle.call_laws.specs.Pieces.{is_named, is_live_master};
ghost use Rattle.call_laws.specs.Pieces.{is_draining, is_any, with_rows};
ghost use Rattle.definitions.specs.Calls.{is_image, has_process_room, lowest_free, with_new_row, each_row, drop_where, census_of};
ghost use Rattle.call_laws.specs.Pieces.{with_new_socket};
ghost use Rattle.definitions.specs.Calls.{first_changed};
ghost use Rattle.call_laws.specs.Pieces.{made_exited};
ghost use Rattle.kernel_rows.specs.Seen.{seen_rows, has_stance};
ghost use Rattle.kernel_rows.specs.Edits.{edited, ChangesActive};
ghost use Rattle.kernel_rows.specs.Places.{is_worker_row, IsActiveAt, IsLiveAt, IsWorkerAt};

use crate::file_row::FileRow;
use crate::free_names::FreeNames;
use crate::lone_names::LoneNames;
use kernel_rows::{Caller, Edit, Holders, Row, Stances, WorkerName, holds};
use listener_set::{Address, DescriptorTable, Generation, Numbers, WORKER_LIMIT};
use std::alloc::AllocError;
use vocabulary::{Limits, Stance};

/// The rows in ascending process numbers, the addresses of sockets 1, 2 and so on, the files, and the next process number.
#[derive(Drop)]
pub struct Store {
    pub holders: Holders,
    pub addresses: Vec<Address>,
    pub files: Vec<FileRow>,
    pub next_process: u64,
    pub limits: Limits,
    /// Where a worker was found by its name last. Calls tend to go on with the row beside it.
    pub last: usize,
    /// Where the newest master was put. It is looked for there first, since many workers may stand before it.
    pub newest: usize,
    /// Names that no Starting or Ready worker bears. A fork of one of them looks at no row.
    pub free: FreeNames,
    /// Names that one worker bears at most, where workers are taken out one after another.
    pub lone: Option<LoneNames>,
}

/// The same items in memory of their own, which is taken at once for so many more.
fn copy_with_room<T: Copy>(items: &Vec<T>, more: usize) -> Result<Vec<T>, AllocError>
    ensures items { IfOk result (λ copy. copy.items ≡ items.now.items) }
    ensures room { IfOk result (λ copy. vec_len copy + more ≤ vec_capacity copy) }
{
    let room = items.len().checked_add(more).ok_or(AllocError)?;
    let mut copy = Vec::with_capacity(*items.allocator(), room)?;
    copy.extend_from_slice(items)?;
    Ok(copy)
}

/// Whether the process at the place is the worker of the name, in one of the stances.
fn is_worker_row(holders: &Holders, stances: Stances, name: WorkerName, place: usize) -> bool
    ensures { (addresses : List (List ℕ)) → result ≡ is_worker_row (has_stance stances) name (slice_get (seen_rows addresses holders.now.items) place) }
{
    match holders.get(place) {
        Some(holder) => holder.row.is_worker(stances, name),
        None => false,
    }
}

/// Whether the worker of the name is at the place, Starting or Ready.
fn is_active_at(holders: &Holders, name: WorkerName, place: usize) -> bool
    ensures { IsTrue result → IsActiveAt holders.now.items name place }
{
    is_worker_row(holders, Stances::Active, name, place)
}

/// The place of the Starting or Ready worker of the name. It is looked for beside the one that was found last, and then
/// everywhere.
fn active_place(holders: &Holders, name: WorkerName, last: usize) -> Option<usize>
    ensures found { IfSome result (IsActiveAt holders.now.items name) }
    ensures none { result ≡ None → (addresses : List (List ℕ)) → list_any (is_worker is_active name.parent name.generation name.nr) (seen_rows addresses holders.now.items) ≡ false }
{
    let next = last.saturating_add(1);
    if is_active_at(holders, name, next) {
        return Some(next);
    }
    let before = last.saturating_sub(1);
    if is_active_at(holders, name, before) {
        return Some(before);
    }
    holders
        .iter()
        .position(|holder| holder.row.is_worker(Stances::Active, name))
}

/// Whether a worker of the name is at the place.
fn is_worker_at(holders: &Holders, name: WorkerName, place: usize) -> bool
    ensures { IsTrue result → IsWorkerAt holders.now.items name place }
{
    is_worker_row(holders, Stances::Any, name, place)
}

/// The place of a worker of the name. It is looked for where one was found last and beside that, since of workers that
/// leave in turn the next one is there; and then everywhere.
fn worker_place(holders: &Holders, name: WorkerName, last: usize) -> Option<usize>
    ensures { IfSome result (IsWorkerAt holders.now.items name) }
{
    let before = last.saturating_sub(1);
    if is_worker_at(holders, name, before) {
        return Some(before);
    }
    if is_worker_at(holders, name, last) {
        return Some(last);
    }
    holders
        .iter()
        .position(|holder| holder.row.is_worker(Stances::Any, name))
}

fn own_count(holders: &Holders) -> usize
    ensures { (addresses : List (List ℕ)) → result ≡ count_by is_own (seen_rows addresses holders.now.items) }
{
    holders.iter().filter(|holder| holder.row.is_own()).count()
}

fn is_held(holders: &Holders, addresses: &[Address], address: &Address) -> bool
    ensures { result ≡ is_held address.now (seen_rows addresses.now holders.now.items) }
{
    holders.iter().any(|holder| holds::has_address(addresses, &holder.holds, address))
}

fn ready_numbers(holders: &Holders, caller: u32, generation: Generation) -> Numbers
    ensures { (addresses : List (List ℕ)) → result ≡ census_of caller generation (seen_rows addresses holders.now.items) }
{
    let mut numbers = Numbers::none();
    for holder in holders.iter() {
        if let Some(nr) = holder.row.worker_number(Stances::Ready, caller, generation) {
            if nr < WORKER_LIMIT {
                numbers.add(nr);
            }
        }
    }
    numbers
}

impl Store {
    ghost use Rattle.kernel_rows.specs.Holds.{seen_holds};
    ghost use Rattle.kernel_rows.specs.Seen.{has_stance, seen_caller, caller_row};
    ghost use Rattle.kernel_table.specs.Seen.{seen};
    ghost use Rattle.kernel_table.specs.Room.{EditsRows, GrowsByOne, HasMemoryFor, LacksNumbers, IsKept};
    ghost use Rattle.kernel_rows.specs.Rows.{master_number};
    ghost use Rattle.kernel_table.specs.Rows.{IsOwn};
    ghost use Rattle.kernel_table.specs.Names.{KnowsNames, IsLoneAt};
    ghost use Rattle.kernel_table.specs.Foreign.{with_foreign};

    /// The live master of an image.
    pub fn live_master(&self, image: u32) -> Option<Caller>
        ensures caller { option_map (seen_caller self.now.addresses.items) result ≡ live_master image (seen self.now).rows }
        ensures row { IfSome result (λ c. Contains (seen self.now).rows (caller_row self.now.addresses.items c)) }
    {
        for holder in self.holders.iter() {
            if let Some(caller) = holder.live_master(image) {
                return Some(caller);
            }
        }
        None
    }

    /// The place of the live master of an image. It is looked for where the newest master was put, and then everywhere.
    fn caller_place(&self, image: u32) -> Option<usize>
        ensures found { IfSome result (IsLiveAt self.now.holders.items image) }
        ensures none { result ≡ None → live_master image (seen self.now).rows ≡ None }
    {
        if self.newest < self.holders.len()
            && self.holders.at(self.newest).row.is_live_image(image)
        {
            return Some(self.newest);
        }
        self.holders
            .iter()
            .position(|holder| holder.row.is_live_image(image))
    }

    /// The live master of an image, of which there is one at most.
    pub fn caller(&self, image: u32) -> Option<Caller>
        requires { IsKept (seen self.now) }
        ensures caller { option_map (seen_caller self.now.addresses.items) result ≡ live_master image (seen self.now).rows }
        ensures row { IfSome result (λ c. Contains (seen self.now).rows (caller_row self.now.addresses.items c)) }
    {
        let place = self.caller_place(image)?;
        Some(self.holders.at(place).caller(image))
    }

    /// Whether the number is a live master's.
    pub fn has_live_master(&self, number: u32) -> bool
        ensures { result ≡ list_any (is_live_master number) (seen self.now).rows }
    {
        self.holders
            .iter()
            .any(|holder| holder.row.is_live_master(number))
    }

    /// Whether there is a master of the image, live or exited.
    pub fn has_master(&self, image: u32) -> bool
        ensures { result ≡ list_any (is_image image) (seen self.now).rows }
    {
        self.holders.iter().any(|holder| holder.row.is_image(image))
    }

    /// The process number of the first master of the image, live or exited.
    pub fn master_number(&self, image: u32) -> Option<u32>
        ensures { result ≡ master_number image (seen self.now).rows }
    {
        for holder in self.holders.iter() {
            if let Some(number) = holder.row.master_number(image) {
                return Some(number);
            }
        }
        None
    }

    /// Whether a worker of the name is in one of the stances.
    pub fn has_worker(&self, stances: Stances, name: WorkerName) -> bool
        ensures { result ≡ list_any (is_worker (has_stance stances) name.parent name.generation name.nr) (seen self.now).rows }
    {
        self.holders
            .iter()
            .any(|holder| holder.row.is_worker(stances, name))
    }

    /// Whether a Starting or Ready worker bears the name.
    pub fn is_borne(&self, name: WorkerName) -> bool
        requires { KnowsNames self.now }
        ensures { result ≡ list_any (is_worker is_active name.parent name.generation name.nr) (seen self.now).rows }
    {
        !self.free.have(name) && self.has_worker(Stances::Active, name)
    }

    /// Whether the process limit allows one more.
    pub fn has_process_room(&self) -> bool
        ensures { result ≡ has_process_room (seen self.now) }
    {
        let limit = self.limits.processes as usize;
        self.holders.len() < limit || own_count(&self.holders) < limit
    }

    /// Whether somebody holds the address.
    pub fn is_held(&self, address: &Address) -> bool
        ensures { result ≡ is_held address.now (seen self.now).rows }
    {
        is_held(&self.holders, &self.addresses, address)
    }

    /// The numbers below 1024 of the master's Ready workers in the generation.
    pub fn ready_numbers(&self, caller: u32, generation: Generation) -> Numbers
        ensures { result ≡ census_of caller generation (seen self.now).rows }
    {
        ready_numbers(&self.holders, caller, generation)
    }

    /// Changes the rows by an edit.
    pub fn edit(&mut self, edit: &Edit)
        ensures table { seen self.new ≡ each_row (edited self.old.addresses.items edit.now) (seen self.old) }
        ensures last { self.new.last ≡ self.old.last }
        ensures room { EditsRows self.old self.new }
    {
        self.lone = None;
        self.holders.edit(&self.addresses, edit);
    }

    /// Whether it was looked up how many workers bear each name of the master's generation, and none came or changed since.
    fn has_looked_up(&self, name: WorkerName) -> bool {
        match &self.lone {
            Some(lone) => lone.are_of(name),
            None => false,
        }
    }

    /// Looks up how many workers bear each name of the master's generation, unless that is known.
    fn look_up(&mut self, name: WorkerName)
        requires { KnowsNames self.old }
        ensures same { self.new ≡ record self.old { lone = self.new.lone } }
        ensures names { KnowsNames self.new }
    {
        if !self.has_looked_up(name) {
            self.lone = Some(LoneNames::among(&self.holders, name.parent, name.generation));
        }
    }

    /// Whether one worker at most is known to bear the name.
    fn is_lone(&self, name: WorkerName) -> bool
        requires { KnowsNames self.now }
        ensures { IsTrue result → count_by (is_worker is_any name.parent name.generation name.nr) (seen self.now).rows ≤ 1 }
    {
        match &self.lone {
            Some(lone) => lone.are_of(name) && lone.have(name.nr),
            None => false,
        }
    }

    /// The place of the only worker of the name. None where there is none, or may be more than one.
    fn lone_place(&mut self, name: WorkerName) -> Option<usize>
        requires { KnowsNames self.old }
        ensures place { IfSome result (IsLoneAt self.new name) }
        ensures same { self.new ≡ record self.old { lone = self.new.lone } }
        ensures names { KnowsNames self.new }
    {
        self.look_up(name);
        if !self.is_lone(name) {
            return None;
        }
        worker_place(&self.holders, name, self.last)
    }

    /// The only worker of the name, which is at the place, leaves.
    fn take_out(&mut self, name: WorkerName, place: usize)
        requires { IsLoneAt self.old name place }
        ensures table { seen self.new ≡ each_row (drop_where (is_worker is_any name.parent name.generation name.nr)) (seen self.old) }
        ensures room { EditsRows self.old self.new }
    {
        self.holders.remove(place);
        self.last = place;
    }

    /// The workers of the name leave, in any stance.
    pub fn remove(&mut self, name: WorkerName)
        requires { KnowsNames self.old }
        ensures table { seen self.new ≡ each_row (drop_where (is_worker is_any name.parent name.generation name.nr)) (seen self.old) }
        ensures room { EditsRows self.old self.new }
    {
        match self.lone_place(name) {
            Some(place) => self.take_out(name, place),
            None => self.edit(&Edit::Kill(name)),
        }
    }

    /// The workers of the name leave, in any stance, unless one is Starting or Ready; whether they do.
    pub fn dismiss(&mut self, name: WorkerName) -> bool
        requires { KnowsNames self.old }
        ensures active { result ≡ not (list_any (is_worker is_active name.parent name.generation name.nr) (seen self.old).rows) }
        ensures table { seen self.new ≡ (if result then each_row (drop_where (is_worker is_any name.parent name.generation name.nr)) (seen self.old) else seen self.old) }
        ensures room { EditsRows self.old self.new }
    {
        match self.lone_place(name) {
            Some(place) => {
                if is_worker_row(&self.holders, Stances::Active, name, place) {
                    return false;
                }
                self.take_out(name, place);
            }
            None => {
                if self.has_worker(Stances::Active, name) {
                    return false;
                }
                self.edit(&Edit::Kill(name));
            }
        }
        true
    }

    /// Changes the Starting or Ready worker of the name, of which there is one at most; whether there is one.
    pub fn edit_active(&mut self, name: WorkerName, edit: &Edit) -> bool
        requires kept { IsKept (seen self.old) }
        requires edit { ChangesActive name edit.now }
        ensures found { result ≡ list_any (is_worker is_active name.parent name.generation name.nr) (seen self.old).rows }
        ensures table { seen self.new ≡ each_row (edited self.old.addresses.items edit.now) (seen self.old) }
        ensures last { IsTrue result → IsActiveAt self.old.holders.items name self.new.last }
        ensures same { IsFalse result → self.new ≡ self.old }
        ensures room { EditsRows self.old self.new }
    {
        let Some(place) = active_place(&self.holders, name, self.last) else {
            return false;
        };
        self.holders.change_at(&self.addresses, name, place, edit);
        self.last = place;
        self.lone = None;
        true
    }

    /// The Draining worker of the name with the lowest process number exits.
    pub fn exit_draining(&mut self, generation: Generation, nr: u32)
        ensures table { seen self.new ≡ with_rows (seen self.old) (first_changed (is_named is_draining generation nr) made_exited (seen self.old).rows) }
        ensures last { self.new.last ≡ self.old.last }
        ensures room { EditsRows self.old self.new }
    {
        self.lone = None;
        self.holders.exit_draining(generation, nr);
    }

    /// Adds a Starting worker with these holds.
    pub fn add_worker(&mut self, name: WorkerName, holds: DescriptorTable)
        requires room { length self.old.holders.items < self.old.holders.capacity }
        requires number { self.old.next_process < 2 ^ 32 }
        ensures table { seen self.new ≡ with_new_row (seen self.old) (λ n. Worker n name.parent name.generation name.nr Stance.Starting (seen_holds self.old.addresses.items holds)) }
        ensures last { self.new.last ≡ self.old.last }
        ensures grows { GrowsByOne self.old self.new }
    {
        let row = Row::Worker {
            number: self.next_process as u32,
            parent: name.parent,
            generation: name.generation,
            nr: name.nr,
            stance: Stance::Starting,
        };
        self.holders.push(row, &holds);
        self.next_process += 1;
        self.free = self.free.without(&self.holders, name);
        self.lone = None;
    }

    /// Adds a live master of the image with these holds.
    pub fn add_master(&mut self, parent: u32, image: u32, holds: DescriptorTable)
        requires room { length self.old.holders.items < self.old.holders.capacity }
        requires number { self.old.next_process < 2 ^ 32 }
        ensures table { seen self.new ≡ with_new_row (seen self.old) (λ n. Master n parent image true (seen_holds self.old.addresses.items holds)) }
        ensures last { self.new.last ≡ self.old.last }
        ensures grows { GrowsByOne self.old self.new }
    {
        let row = Row::Master {
            number: self.next_process as u32,
            parent,
            image,
            live: true,
        };
        self.newest = self.holders.len();
        self.holders.push(row, &holds);
        self.next_process += 1;
        self.lone = None;
    }

    /// Adds a socket of the address, which the master holds from then on at its lowest free descriptor. That is given.
    pub fn add_socket(&mut self, caller: &Caller, address: &Address) -> u32
        requires room { vec_len self.old.addresses < vec_capacity self.old.addresses }
        requires number { length self.old.addresses.items + 1 < 2 ^ 32 }
        requires free { length caller.now.holds < 64 }
        requires kept { IsKept (seen self.old) }
        requires own { IsOwn self.old caller.now }
        ensures descriptor { result ≡ lowest_free (seen_holds self.old.addresses.items caller.now.holds) }
        ensures table { seen self.new ≡ with_new_socket (seen self.old) caller.now.number (record { fd = result; socket = (seen self.old).next_socket; address = address.now }) }
        ensures last { self.new.last ≡ self.old.last }
        ensures grows { GrowsByOne self.old self.new }
    {
        let socket = self.addresses.len() as u32 + 1;
        let mut holds = caller.holds;
        let descriptor = holds.put(socket).unwrap();
        self.addresses.push(*address).unwrap();
        self.lone = None;
        self.edit(&Edit::Hold(caller.number, holds));
        descriptor
    }

    /// Adds a process of somebody else, which holds the address at descriptor 3 by a new socket.
    pub fn add_foreign(&mut self, address: &Address)
        requires holder_room { length self.old.holders.items < self.old.holders.capacity }
        requires address_room { vec_len self.old.addresses < vec_capacity self.old.addresses }
        requires process_number { self.old.next_process < 2 ^ 32 }
        requires socket_number { length self.old.addresses.items + 1 < 2 ^ 32 }
        requires kept { IsKept (seen self.old) }
        ensures table { seen self.new ≡ with_foreign address.now (seen self.old) }
        ensures last { self.new.last ≡ self.old.last }
        ensures grows { GrowsByOne self.old self.new }
    {
        let socket = self.addresses.len() as u32 + 1;
        let mut holds = DescriptorTable::new();
        let _ = holds.put(socket).unwrap();
        let row = Row::Foreign {
            number: self.next_process as u32,
        };
        self.addresses.push(*address).unwrap();
        self.holders.push(row, &holds);
        self.next_process += 1;
        self.lone = None;
    }

    /// Whether fewer process or socket numbers are left than that many.
    pub fn lacks_numbers(&self, calls: u32) -> bool
        ensures { IsTrue result ↔ LacksNumbers (seen self.now) calls }
    {
        let most = 1u64 << 32;
        let calls = u64::from(calls);
        let next_socket = self.addresses.len() as u64 + 1;
        most < calls || most - calls < self.next_process || most - calls < next_socket
    }

    /// Takes memory for that many rows, sockets and files more.
    pub fn grow(&mut self, calls: u32) -> Result<(), AllocError>
        ensures same { seen self.new ≡ seen self.old }
        ensures free { self.new.free ≡ self.old.free }
        ensures lone { self.new.lone ≡ self.old.lone }
        ensures more { OnOk result (HasMemoryFor calls self.new) }
        ensures kept { (n : ℕ) → HasMemoryFor n self.old → HasMemoryFor n self.new }
    {
        self.holders.reserve(calls as usize)?;
        self.addresses.reserve(calls as usize)?;
        self.files.reserve(calls as usize)?;
        Ok(())
    }

    /// The same rows in memory of their own, with memory for that many rows, sockets and files more.
    pub fn copy(&self, calls: u32) -> Result<Self, AllocError>
        ensures same { IfOk result (λ s. seen s ≡ seen self.now) }
        ensures free { IfOk result (λ s. s.free ≡ self.now.free) }
        ensures lone { IfOk result (λ s. s.lone ≡ None) }
        ensures room { IfOk result (HasMemoryFor calls) }
    {
        let more = calls as usize;
        Ok(Store {
            holders: self.holders.copy(more)?,
            addresses: copy_with_room(&self.addresses, more)?,
            files: copy_with_room(&self.files, more)?,
            next_process: self.next_process,
            limits: self.limits,
            last: self.last,
            newest: self.newest,
            free: self.free,
            lone: None,
        })
    }
}
