//! Processes: what each is, and what it holds.
ghost use Rattle.std.specs.Prelude.{◌≡◌, ℕ, List, [], ◌∷◌, is_some, true, Some, IfSome};
ghost use Rattle.std.specs.Option.{option_map};
ghost use Rattle.definitions.specs.Table.{Hold, number_of, is_own, is_master, is_worker, live_master, is_active};
ghost use Rattle.call_laws.specs.Pieces.{is_named, is_live_master};
ghost use Rattle.call_laws.specs.Pieces.{is_starting, is_ready, is_draining, is_exited};
ghost use Rattle.definitions.specs.Calls.{is_of, is_exited_of, is_image};
ghost use Rattle.call_laws.specs.Pieces.{is_row};

use listener_set::{DescriptorTable, Generation};
use vocabulary::Stance;

/// What a process is. A foreign one is somebody else's.
#[derive(Clone, Copy, Debug, PartialEq, Eq)]
pub enum Row {
    /// A master of an image, live or exited.
    Master {
        number: u32,
        parent: u32,
        image: u32,
        live: bool,
    },
    /// A worker of the master with the parent's number.
    Worker {
        number: u32,
        parent: u32,
        generation: Generation,
        nr: u32,
        stance: Stance,
    },
    Foreign {
        number: u32,
    },
}

/// Some stances of a worker.
#[derive(Clone, Copy)]
pub enum Stances {
    Starting,
    Ready,
    /// Starting or Ready.
    Active,
    Draining,
    Exited,
    Any,
}

/// The name of a worker, and the number of its master.
#[derive(Clone, Copy)]
pub struct WorkerName {
    pub parent: u32,
    pub generation: Generation,
    pub nr: u32,
}

/// A process with its holds: sockets by their numbers.
#[derive(Clone, Copy)]
pub struct Holder {
    pub row: Row,
    pub holds: DescriptorTable,
}

/// A live master.
#[derive(Clone, Copy)]
pub struct Caller {
    pub number: u32,
    pub parent: u32,
    pub image: u32,
    pub holds: DescriptorTable,
}

impl Caller {
    /// The name of a worker of it.
    pub fn worker(&self, generation: Generation, nr: u32) -> WorkerName
        ensures { result ≡ record { parent = self.now.number; generation = generation; nr = nr } }
    {
        WorkerName {
            parent: self.number,
            generation,
            nr,
        }
    }
}

fn is_starting(stance: Stance) -> bool
    ensures { result ≡ is_starting stance }
{
    match stance {
        Stance::Starting => true,
        Stance::Ready | Stance::Draining | Stance::Exited => false,
    }
}

fn is_ready(stance: Stance) -> bool
    ensures { result ≡ is_ready stance }
{
    match stance {
        Stance::Ready => true,
        Stance::Starting | Stance::Draining | Stance::Exited => false,
    }
}

fn is_active(stance: Stance) -> bool
    ensures { result ≡ is_active stance }
{
    match stance {
        Stance::Starting | Stance::Ready => true,
        Stance::Draining | Stance::Exited => false,
    }
}

fn is_draining(stance: Stance) -> bool
    ensures { result ≡ is_draining stance }
{
    match stance {
        Stance::Draining => true,
        Stance::Starting | Stance::Ready | Stance::Exited => false,
    }
}

fn is_exited(stance: Stance) -> bool
    ensures { result ≡ is_exited stance }
{
    match stance {
        Stance::Exited => true,
        Stance::Starting | Stance::Ready | Stance::Draining => false,
    }
}

impl Stances {
    ghost use Rattle.kernel_rows.specs.Seen.{has_stance};

    fn has(self, stance: Stance) -> bool
        ensures { result ≡ has_stance self stance }
    {
        match self {
            Stances::Starting => is_starting(stance),
            Stances::Ready => is_ready(stance),
            Stances::Active => is_active(stance),
            Stances::Draining => is_draining(stance),
            Stances::Exited => is_exited(stance),
            Stances::Any => true,
        }
    }
}

impl Row {
    ghost use Rattle.kernel_rows.specs.Seen.{process_of, has_stance, is_number};
    ghost use Rattle.kernel_rows.specs.Edits.{is_of_either};
    ghost use Rattle.kernel_rows.specs.Rows.{master_number};

    /// The process number.
    pub fn number(&self) -> u32
        ensures { (hs : List Hold) → result ≡ number_of (process_of self.now hs) }
    {
        match *self {
            Row::Master { number, .. } | Row::Worker { number, .. } | Row::Foreign { number } =>
                number,
        }
    }

    /// Whether it is a master or a worker, which the process limit counts.
    pub fn is_own(&self) -> bool
        ensures { (hs : List Hold) → result ≡ is_own (process_of self.now hs) }
    {
        match self {
            Row::Master { .. } | Row::Worker { .. } => true,
            Row::Foreign { .. } => false,
        }
    }

    /// Whether it is a master, live or exited.
    pub fn is_master(&self) -> bool
        ensures { (hs : List Hold) → result ≡ is_master (process_of self.now hs) }
    {
        match self {
            Row::Master { .. } => true,
            Row::Worker { .. } | Row::Foreign { .. } => false,
        }
    }

    /// Whether it is a live master with the number.
    pub fn is_live_master(&self, with: u32) -> bool
        ensures { (hs : List Hold) → result ≡ is_live_master with (process_of self.now hs) }
    {
        match *self {
            Row::Master { number, live, .. } => live && number == with,
            Row::Worker { .. } | Row::Foreign { .. } => false,
        }
    }

    /// Whether it is the live master of the image.
    pub fn is_live_image(&self, with: u32) -> bool
        ensures { (hs : List Hold) → result ≡ is_some (live_master with (process_of self.now hs ∷ [])) }
    {
        match *self {
            Row::Master { image, live, .. } => live && image == with,
            Row::Worker { .. } | Row::Foreign { .. } => false,
        }
    }

    /// Whether it is a worker of any master with the name, in one of the stances.
    pub fn is_named(&self, stances: Stances, generation: Generation, nr: u32) -> bool
        ensures { (hs : List Hold) → result ≡ is_named (has_stance stances) generation nr (process_of self.now hs) }
    {
        match *self {
            Row::Worker {
                generation: own,
                nr: number,
                stance,
                ..
            } => {
                stances.has(stance)
                    && own.image == generation.image
                    && own.config == generation.config
                    && number == nr
            }
            Row::Master { .. } | Row::Foreign { .. } => false,
        }
    }

    /// Whether it is the worker of the master with the name, in one of the stances.
    pub fn is_worker(&self, stances: Stances, name: WorkerName) -> bool
        ensures { (hs : List Hold) → result ≡ is_worker (has_stance stances) name.parent name.generation name.nr (process_of self.now hs) }
    {
        match *self {
            Row::Worker { parent, .. } => {
                parent == name.parent && self.is_named(stances, name.generation, name.nr)
            }
            Row::Master { .. } | Row::Foreign { .. } => false,
        }
    }

    /// The number of a worker of the master in the generation, in one of the stances.
    pub fn worker_number(
        &self,
        stances: Stances,
        caller: u32,
        generation: Generation,
    ) -> Option<u32>
        ensures { (hs : List Hold) (k : ℕ) → is_worker (has_stance stances) caller generation k (process_of self.now hs) ≡ is_number result k }
    {
        match *self {
            Row::Worker {
                parent,
                generation: own,
                nr,
                stance,
                ..
            } if stances.has(stance)
                && parent == caller
                && own.image == generation.image
                && own.config == generation.config => { Some(nr) }
            _ => None,
        }
    }

    /// Whether it is an exited worker of the master.
    pub fn is_exited_of(&self, caller: u32) -> bool
        ensures { (hs : List Hold) → result ≡ is_exited_of caller (process_of self.now hs) }
    {
        match *self {
            Row::Worker { parent, stance, .. } => is_exited(stance) && parent == caller,
            Row::Master { .. } | Row::Foreign { .. } => false,
        }
    }

    /// Whether it is the master with the number, or one of its workers.
    pub fn is_of(&self, caller: u32) -> bool
        ensures { (hs : List Hold) → result ≡ is_of caller (process_of self.now hs) }
    {
        match *self {
            Row::Master { .. } => self.is_row(caller),
            Row::Worker { parent, .. } => parent == caller,
            Row::Foreign { .. } => false,
        }
    }

    /// Whether it is a master of the image, live or exited.
    pub fn is_image(&self, with: u32) -> bool
        ensures { (hs : List Hold) → result ≡ is_image with (process_of self.now hs) }
    {
        match *self {
            Row::Master { image, .. } => image == with,
            Row::Worker { .. } | Row::Foreign { .. } => false,
        }
    }

    /// The process number, where it is a master of the image.
    pub fn master_number(&self, with: u32) -> Option<u32>
        ensures { (hs : List Hold) → result ≡ master_number with (process_of self.now hs ∷ []) }
    {
        match *self {
            Row::Master { number, image, .. } if image == with => Some(number),
            _ => None,
        }
    }

    /// Whether it is a master of the image, or a worker of the master with the number.
    pub fn is_of_either(&self, with: u32, master: Option<u32>) -> bool
        ensures { (hs : List Hold) → result ≡ is_of_either with master (process_of self.now hs) }
    {
        match *self {
            Row::Master { .. } => self.is_image(with),
            Row::Worker { parent, .. } => match master {
                Some(number) => number == parent,
                None => false,
            },
            Row::Foreign { .. } => false,
        }
    }

    /// Whether it is the master with the number.
    pub fn is_row(&self, caller: u32) -> bool
        ensures { (hs : List Hold) → result ≡ is_row caller (process_of self.now hs) }
    {
        match *self {
            Row::Master { number, .. } => number == caller,
            Row::Worker { .. } | Row::Foreign { .. } => false,
        }
    }
}

impl Holder {
    ghost use Rattle.kernel_rows.specs.Seen.{seen_holder, seen_caller, caller_row};

    /// The live master of the image, which it is.
    pub fn caller(&self, with: u32) -> Caller
        requires { (addresses : List (List ℕ)) → is_some (live_master with (seen_holder addresses self.now ∷ [])) ≡ true }
        ensures caller { (addresses : List (List ℕ)) → Some (seen_caller addresses result) ≡ live_master with (seen_holder addresses self.now ∷ []) }
        ensures row { (addresses : List (List ℕ)) → seen_holder addresses self.now ≡ caller_row addresses result }
    {
        let holds = self.holds;
        match self.row {
            Row::Master {
                number,
                parent,
                image,
                ..
            } => Caller {
                number,
                parent,
                image,
                holds,
            },
            Row::Worker { .. } => unreachable!(),
            Row::Foreign { .. } => unreachable!(),
        }
    }

    /// The live master of the image, where it is that.
    pub fn live_master(&self, with: u32) -> Option<Caller>
        ensures caller { (addresses : List (List ℕ)) → option_map (seen_caller addresses) result ≡ live_master with (seen_holder addresses self.now ∷ []) }
        ensures row { (addresses : List (List ℕ)) → IfSome result (λ c. seen_holder addresses self.now ≡ caller_row addresses c) }
    {
        match self.row {
            Row::Master {
                number,
                parent,
                image,
                live,
            } if live && image == with => {
                Some(Caller {
                    number,
                    parent,
                    image,
                    holds: self.holds,
                })
            }
            _ => None,
        }
    }
}
