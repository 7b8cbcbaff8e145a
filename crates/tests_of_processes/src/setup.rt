//! What tests begin with.
use crate::shells::shell;
use child_family::{Family, Heard, Role};
use child_processes::{ChildLimits, OsFamily};
use listener_set::Generation;
use log::sink::Discard;
use plain_text::Line;
use std::alloc::{AllocError, Global};
use std::test::Fail;

/// What the workers run.
pub(crate) const FIRST: Generation = Generation {
    image: 1,
    config: 1,
};

pub(crate) const WORKER: Role = Role::Worker {
    generation: FIRST,
    nr: 0,
    start: 1,
};

/// A family whose children can be counted and ended.
pub(crate) trait Counted: Family + Drop {
    /// How many children were not waited for.
    fn left(&self) -> usize;

    /// Ends all children.
    fn end(&mut self);
}

impl Counted for OsFamily<&HostRuntime, Discard> {
    fn left(&self) -> usize {
        self.count()
    }

    fn end(&mut self) {
        self.finish();
    }
}

/// What makes families.
pub(crate) trait Families {
    type Made: Counted;

    fn alloc(&self) -> Global;

    /// A family whose masters are started as a program, and its workers as a command.
    fn make(&self, program: &str, command: &[String]) -> Result<Self::Made, AllocError>;
}

/// What makes families of processes, with limits or without.
#[derive(Clone, Copy)]
struct Processes<'a> {
    rt: &'a HostRuntime,
    limits: Option<ChildLimits>,
}

impl<'a> Families for Processes<'a> {
    type Made = OsFamily<&'a HostRuntime, Discard>;

    fn alloc(&self) -> Global {
        self.rt.alloc()
    }

    fn make(&self, program: &str, command: &[String]) -> Result<Self::Made, AllocError> {
        let family = OsFamily::new(self.rt.alloc(), self.rt, program, command)?;
        Ok(match self.limits {
            None => family,
            Some(limits) => family.limited(limits, Discard),
        })
    }
}

/// What is tried on families, whatever their children are. So no test is proved of processes, which takes longer.
pub(crate) trait Trial {
    fn holds<M: Families>(&self, families: &M) -> Result<bool, Fail>;
}

/// Whether a trial holds on processes.
pub(crate) fn holds<T: Trial>(
    rt: &HostRuntime,
    limits: Option<ChildLimits>,
    trial: &T,
) -> Result<bool, Fail> {
    trial.holds(&Processes { rt, limits })
}

/// A family whose workers are shells on a script.
pub(crate) fn scripted<M: Families>(families: &M, script: &str) -> Result<M::Made, AllocError> {
    let command = shell(families.alloc(), script)?;
    families.make("none", command.as_slice())
}

/// Starts a child, hears it once, and waits for its end. Nothing where it could not be started or waited for.
pub(crate) fn hear_one<F: Family>(family: &mut F, role: &Role, line: &mut Line) -> Option<Heard> {
    let Ok(id) = family.start(role) else {
        return None;
    };
    let heard = family.hear(id, line);
    if family.gone(id) { Some(heard) } else { None }
}

/// Whether a child says this first, and can be waited for then.
pub(crate) fn says_first<F: Family>(family: &mut F, role: &Role, text: &[u8]) -> bool {
    let mut line = Line::new();
    hear_one(family, role, &mut line) == Some(Heard::Line) && line.bytes() == text
}

/// A worker on a script says this first, and leaves no child.
#[derive(Clone, Copy)]
pub(crate) struct Says<'a> {
    pub(crate) script: &'a str,
    pub(crate) text: &'a [u8],
}

impl Trial for Says<'_> {
    fn holds<M: Families>(&self, families: &M) -> Result<bool, Fail> {
        let mut family = scripted(families, self.script)?;
        Ok(says_first(&mut family, &WORKER, self.text) && family.left() == 0)
    }
}
