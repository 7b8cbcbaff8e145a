//! What exits and calls do to each process.
ghost use Rattle.std.specs.Prelude.{◌≡◌, ℕ, List};
ghost use Rattle.definitions.specs.Calls.{without_exited};
ghost use Rattle.call_laws.specs.Pieces.{made_exited};
ghost use Rattle.std.specs.Bool.{then_some};
ghost use Rattle.call_laws.specs.Pieces.{made_ready, made_draining};

use crate::holds;
use crate::process::{Holder, Row, Stances, WorkerName};
use listener_set::{Address, DescriptorTable, Generation};
use vocabulary::Stance;

/// A change of the rows: each process changes or leaves by it alone.
#[derive(Clone, Copy)]
pub enum Edit {
    /// The Starting or Ready worker of the name exits.
    ExitWorker(Generation, u32),
    /// The master with the number exits, and its workers leave; whether its own row stays.
    ExitMaster(u32, bool),
    /// The Starting worker of the name is Ready.
    MakeReady(WorkerName),
    /// The Starting or Ready worker of the name drains.
    Drain(WorkerName),
    /// The Exited workers of the name leave.
    Reap(WorkerName),
    /// The workers of the name leave.
    Kill(WorkerName),
    /// The Exited workers of the master leave.
    ReapAll(u32),
    /// The master with the number has these holds.
    Hold(u32, DescriptorTable),
    /// The master with the number and its workers lose their holds of the address.
    Close(u32, Address),
    /// The masters of the image leave.
    ReapMaster(u32),
    /// The masters of the image leave, and the workers of the master with the number.
    Terminate(u32, Option<u32>),
}

impl Holder {
    ghost use Rattle.kernel_rows.specs.Seen.{seen_holder};
    ghost use Rattle.kernel_rows.specs.Edits.{edited};

    /// The worker exits.
    pub fn exit(&mut self)
        ensures { (addresses : List (List ℕ)) → seen_holder addresses self.new ≡ made_exited (seen_holder addresses self.old) }
    {
        if let Row::Worker { stance, .. } = &mut self.row {
            *stance = Stance::Exited;
            self.holds = DescriptorTable::new();
        }
    }

    fn drain(&mut self)
        ensures { (addresses : List (List ℕ)) → seen_holder addresses self.new ≡ made_draining (seen_holder addresses self.old) }
    {
        if let Row::Worker { stance, .. } = &mut self.row {
            *stance = Stance::Draining;
            self.holds = DescriptorTable::new();
        }
    }

    fn make_ready(&mut self)
        ensures { (addresses : List (List ℕ)) → seen_holder addresses self.new ≡ made_ready (seen_holder addresses self.old) }
    {
        if let Row::Worker { stance, .. } = &mut self.row {
            *stance = Stance::Ready;
        }
    }

    /// The master with the number exits, and its workers leave; whether this process stays.
    fn exit_master(&mut self, gone: u32, stays: bool) -> bool
        ensures { (addresses : List (List ℕ)) → then_some result (seen_holder addresses self.new) ≡ without_exited gone (λ q. stays) (seen_holder addresses self.old) }
    {
        match self.row {
            Row::Master {
                number,
                parent,
                image,
                live,
            } => {
                if number == gone {
                    self.row = Row::Master {
                        number,
                        parent,
                        image,
                        live: false,
                    };
                    self.holds = DescriptorTable::new();
                    return stays;
                }
                let parent = if parent == gone { 1 } else { parent };
                self.row = Row::Master {
                    number,
                    parent,
                    image,
                    live,
                };
                true
            }
            Row::Worker { parent, .. } => parent != gone,
            Row::Foreign { .. } => true,
        }
    }

    /// Changes the process by the edit; whether it stays.
    pub fn edit(&mut self, addresses: &[Address], edit: &Edit) -> bool
        ensures { then_some result (seen_holder addresses.now self.new) ≡ edited addresses.now edit.now (seen_holder addresses.now self.old) }
    {
        match edit {
            Edit::ExitWorker(generation, nr) => {
                if self.row.is_named(Stances::Active, *generation, *nr) {
                    self.exit();
                }
                true
            }
            Edit::ExitMaster(number, stays) => self.exit_master(*number, *stays),
            Edit::MakeReady(name) => {
                if self.row.is_worker(Stances::Starting, *name) {
                    self.make_ready();
                }
                true
            }
            Edit::Drain(name) => {
                if self.row.is_worker(Stances::Active, *name) {
                    self.drain();
                }
                true
            }
            Edit::Reap(name) => !self.row.is_worker(Stances::Exited, *name),
            Edit::Kill(name) => !self.row.is_worker(Stances::Any, *name),
            Edit::ReapAll(caller) => !self.row.is_exited_of(*caller),
            Edit::Hold(caller, holds) => {
                if self.row.is_row(*caller) {
                    self.holds = *holds;
                }
                true
            }
            Edit::Close(caller, address) => {
                if self.row.is_of(*caller) {
                    self.holds = holds::without_address(addresses, &self.holds, address);
                }
                true
            }
            Edit::ReapMaster(image) => !self.row.is_image(*image),
            Edit::Terminate(image, master) => !self.row.is_of_either(*image, *master),
        }
    }
}
