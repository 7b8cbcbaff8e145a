//! The modelled kernel.
ghost use Rattle.std.specs.Prelude.{true, false, ◌≡◌, ◌≤◌, ◌+◌, ◌↔◌, length, max, IsTrue, OnOk, OnErr, IfOk, IsErrOf};
ghost use Rattle.std.specs.Option.{option_map};
ghost use Rattle.definitions.specs.Table.{is_held, live_master, IsFormed};
ghost use Rattle.definitions.specs.Calls.{after_exits};
ghost use Rattle.definitions.specs.Calls.{step_with};
ghost use Rattle.handover_text.specs.Reading.{handed_by};
ghost use Rattle.call_laws.specs.Start.{booted};
ghost use Rattle.kernel_model.specs.Alone.{LeavesOthersAlone};
ghost use Rattle.kernel_model.specs.Boot.{AreBadLimits};
ghost use Rattle.kernel_table.specs.Room.{LacksNumbers};
ghost use Rattle.kernel_table.specs.Seen.{seen};
ghost use Rattle.kernel_table.specs.Foreign.{with_foreign};

use crate::boot::{self, BootRefusal};
use crate::{ForeignRefusal, ReserveRefusal, calls, exits};
use kernel_pattern::Moment;
use kernel_table::Store;
use listener_set::Address;
use std::alloc::{AllocError, Global};
use std::marker::Model;
use vocabulary::{Actor, Answer, Call, Limits, Settings};

/// The kernel: its table, and for how many calls it has memory and numbers.
#[derive(Drop)]
pub struct Kernel {
    pub(crate) store: Store,
    room: u32,
}

impl Model for Kernel {
    ghost use Rattle.kernel_model.specs.State.{State};

    ghost Value = { State };

    ghost use Rattle.kernel_table.specs.Seen.{seen};
    ghost use Rattle.kernel_table.specs.Room.{IsSound};

    ghost view = { λ k. record { table = seen k.store; room = k.room } };

    ghost invariant = { λ k. IsSound k.room k.store };
}

impl Kernel {
    /// A kernel with the master of image 1 and that many Ready workers. The master has process number 100, parent 1 and the
    /// listeners of the settings from descriptor 3 on in their order, of which each group has the next so many; the workers,
    /// of generation 1.1, are numbered from 0, have process numbers from 101, and hold what their group has. Where the
    /// settings have a pid file it holds 100. Room is for no call.
    ///
    /// B1 where there are more than 1,024 workers, the processes are limited to fewer than the master and these or to more
    /// than 65,535, or the descriptors to fewer than the listeners or to more than 64.
    pub fn boot(
        alloc: Global,
        settings: &Settings,
        workers: u32,
        limits: Limits,
    ) -> Result<Self, BootRefusal>
        ensures ok { IfOk result (λ k. k ≡ record { table = booted settings.now.listeners settings.now.groups workers settings.now.pid limits; room = 0 }) }
        ensures bad_limits { IsErrOf result BootRefusal.BadLimits ↔ AreBadLimits (length settings.now.listeners) workers limits }
        ensures formed { IfOk result (λ k. IsFormed k.table) }
    {
        if boot::are_bad(settings.listeners.len(), workers, limits) {
            return Err(BootRefusal::BadLimits);
        }
        let Ok(store) = boot::first_store(alloc, settings, workers, limits) else {
            return Err(BootRefusal::Memory);
        };
        Ok(Kernel { store, room: 0 })
    }

    /// The rows of the table, as they are kept.
    pub fn store(&self) -> &Store
        ensures { seen result.now ≡ self.now.table }
    {
        let _ = &self.room;
        &self.store
    }

    /// For how many calls memory and numbers are reserved.
    pub fn room(&self) -> u32
        ensures { result ≡ self.now.room }
    {
        self.room
    }

    /// Whether fewer than that many process or socket numbers are left, up to 4,294,967,295.
    pub fn lacks_numbers(&self, calls: u32) -> bool
        ensures { IsTrue result ↔ LacksNumbers self.now.table calls }
    {
        let _ = &self.room;
        self.store.lacks_numbers(calls)
    }

    /// Raises the room to that many calls where it is less: takes memory for them, and keeps numbers for them. B3 where
    /// `lacks_numbers` says so.
    pub fn reserve(&mut self, calls: u32) -> Result<(), ReserveRefusal>
        ensures ok { OnOk result (self.new ≡ record { table = self.old.table; room = max self.old.room calls }) }
        ensures formed { IsFormed self.old.table }
        ensures descriptors { self.old.table.limits.descriptors ≤ 64 }
        ensures no_numbers { IsErrOf result ReserveRefusal.NoNumbers ↔ LacksNumbers self.old.table calls }
        ensures err { OnErr result (self.new ≡ self.old) }
    {
        if calls <= self.room {
            return Ok(());
        }
        self.set_room(calls)
    }

    /// Makes the room exactly that many calls, whatever it was. B3 as for `reserve`.
    pub fn set_room(&mut self, calls: u32) -> Result<(), ReserveRefusal>
        ensures ok { OnOk result (self.new ≡ record { table = self.old.table; room = calls }) }
        ensures formed { IsFormed self.old.table }
        ensures descriptors { self.old.table.limits.descriptors ≤ 64 }
        ensures no_numbers { IsErrOf result ReserveRefusal.NoNumbers ↔ LacksNumbers self.old.table calls }
        ensures err { OnErr result (self.new ≡ self.old) }
    {
        let _ = &self.room;
        if self.store.lacks_numbers(calls) {
            return Err(ReserveRefusal::NoNumbers);
        }
        self.store.grow(calls).map_err(|_| ReserveRefusal::Memory)?;
        self.room = calls;
        Ok(())
    }

    /// Adds a process of somebody else, which holds the address at descriptor 3 by a new socket. The room stays. B2 where
    /// a process holds the address already; else B3 where no process or socket number is left beyond the room.
    pub fn foreign(&mut self, address: &Address) -> Result<(), ForeignRefusal>
        ensures ok { OnOk result (self.new ≡ record { table = with_foreign address.now self.old.table; room = self.old.room }) }
        ensures held { IsErrOf result ForeignRefusal.Held ↔ (is_held address.now self.old.table.rows ≡ true) }
        ensures no_numbers { IsErrOf result ForeignRefusal.NoNumbers ↔ (is_held address.now self.old.table.rows ≡ false) × LacksNumbers self.old.table (self.old.room + 1) }
        ensures err { OnErr result (self.new ≡ self.old) }
        ensures formed { OnOk result (IsFormed self.new.table) }
    {
        let _ = &self.room;
        if self.store.is_held(address) {
            return Err(ForeignRefusal::Held);
        }
        let Some(needed) = self.room.checked_add(1) else {
            return Err(ForeignRefusal::NoNumbers);
        };
        if self.store.lacks_numbers(needed) {
            return Err(ForeignRefusal::NoNumbers);
        }
        self.store.grow(needed).map_err(|_| ForeignRefusal::Memory)?;
        self.store.add_foreign(address);
        Ok(())
    }

    /// The same table in memory of its own, with room for exactly that many calls. B3 as for `reserve`.
    pub fn copy(&self, calls: u32) -> Result<Self, ReserveRefusal>
        ensures same { IfOk result (λ k. k ≡ record { table = self.now.table; room = calls }) }
        ensures formed { IsFormed self.now.table }
        ensures descriptors { self.now.table.limits.descriptors ≤ 64 }
        ensures no_numbers { IsErrOf result ReserveRefusal.NoNumbers ↔ LacksNumbers self.now.table calls }
    {
        let _ = &self.room;
        if self.lacks_numbers(calls) {
            return Err(ReserveRefusal::NoNumbers);
        }
        let Ok(store) = self.store.copy(calls) else {
            return Err(ReserveRefusal::Memory);
        };
        Ok(Kernel { store, room: calls })
    }

    /// One moment: the exits, one after another, and then the call by the master of the image. A master that is gone is
    /// answered so; then comes the fault that a fate gives; then the call's own answer. The text is what the master is
    /// handed as it starts, which Adopt reads. It takes no memory. A call by which a master builds or mends leaves other
    /// masters and their workers alone.
    pub fn call(&mut self, by: Actor, call: &Call, text: &[u8], moment: &Moment<'_>) -> Answer
        requires { 1 ≤ self.old.room }
        ensures step { record { answer = result; table = self.new.table } ≡ step_with (handed_by text.now) by call.now moment.now.fate (after_exits moment.now.exits.now self.old.table) }
        ensures room { self.new.room + 1 ≡ self.old.room }
        ensures formed { IsFormed self.new.table }
        ensures alone { LeavesOthersAlone by call.now (after_exits moment.now.exits.now self.old.table) self.new.table }
    {
        self.room -= 1;
        exits::exit_all(&mut self.store, moment.exits);
        calls::answered(&mut self.store, by.0, call, text, moment.fate)
    }

    /// The process number of the live master of an image.
    pub fn master(&self, image: u32) -> Option<u32>
        ensures { result ≡ option_map (λ c. c.number) (live_master image self.now.table.rows) }
    {
        self.store.live_master(image).map(|master| master.number)
    }
}
