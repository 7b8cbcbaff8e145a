//! What an upgrade changes.
ghost use Rattle.std.specs.Prelude.{◌≡◌};
ghost use Rattle.listener_set.specs.Numbers.{numbers_below};

use listener_set::{Address, FilePath, Numbers};
use vocabulary::{Actor, PidNote};
use worker_groups::Crew;

/// A master with its workers.
#[derive(Clone, Copy)]
pub struct Staff {
    /// What its workers run, and where those of each group listen; the image is the master's own.
    pub crew: Crew,
    /// The numbers of its workers.
    pub numbers: Numbers,
}

impl Staff {
    /// The master.
    pub fn master(&self) -> Actor
        ensures { result ≡ self.now.crew.generation.image }
    {
        Actor(self.crew.generation.image)
    }
}

/// What an upgrade changes.
#[derive(Clone, Copy)]
pub struct Upgrade<'a> {
    /// Whether the operator is asked whether to go on or back.
    pub attended: bool,
    /// The old master with its ready workers, and their numbers upwards.
    pub old: Staff,
    pub leaving: &'a [u32],
    /// The new master with the workers that are wanted of it, and their numbers upwards.
    pub new: Staff,
    pub coming: &'a [u32],
    /// How many workers are wanted.
    pub workers: u32,
    /// How many rounds of starts a settle makes before it gives up, from 0 to 8.
    pub rounds: u32,
    /// The pid file, a path of at most 100 bytes, and where it stands.
    pub path: Option<FilePath>,
    pub note: PidNote,
    /// The addresses that are listened on no more, and those that are listened on anew.
    pub dropped: &'a [Address],
    pub added: &'a [Address],
    ghost leave: { leaving.now ≡ old.numbers },
    ghost come: { coming.now ≡ new.numbers },
    ghost wanted: { new.numbers ≡ numbers_below workers },
}
