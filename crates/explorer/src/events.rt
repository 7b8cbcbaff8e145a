//! What goes wrong in a run.
use vocabulary::{Fate, Name};

/// What goes wrong at one call.
#[derive(Clone, Copy, Debug)]
pub enum Mishap {
    /// The process of this name and number exits before it.
    Exit(Name, u32),
    /// It fails so.
    Fail(Fate),
}

/// What goes wrong, and at which call of the run, counted from 1.
#[derive(Clone, Copy, Debug)]
pub struct Event {
    pub number: u32,
    pub mishap: Mishap,
}

/// All that goes wrong in a run, in its order.
#[derive(Clone, Copy, Debug)]
pub enum Tried {
    Nothing,
    One(Event),
    Two(Event, Event),
}

impl Tried {
    ghost use Rattle.std.specs.Prelude.{◌≡◌};
    ghost use Rattle.explorer.specs.Events.{events_in};

    /// How many things go wrong.
    pub fn count(&self) -> u32
        ensures { result ≡ events_in self.now }
    {
        match self {
            Tried::Nothing => 0,
            Tried::One(_) => 1,
            Tried::Two(..) => 2,
        }
    }
}
