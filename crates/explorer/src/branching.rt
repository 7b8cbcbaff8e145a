//! Where runs branch off another one.
ghost use Rattle.std.specs.Prelude.{◌≡◌, ◌+◌, IfOk};
ghost use Rattle.explorer.specs.Events.{pattern_of, with_mishap};
ghost use Rattle.explorer.specs.Positions.{IsFit, IsLater, moment_of};
ghost use Rattle.explorer.specs.Branching.{IsDue};

use crate::events::{Mishap, Tried};
use crate::known::Known;
use crate::position::Position;
use plan_walk::Due;
use std::alloc::AllocError;
use vocabulary::Name;

/// A call that is due in a run. Whatever goes wrong at it, a run branches off here.
#[derive(Clone, Copy)]
pub(crate) struct BranchPoint<'a, 'b> {
    /// The run up to the call.
    pub(crate) run: &'a Position<'b>,
    /// The call.
    pub(crate) due: &'a Due,
    /// What is known of the runs that branch off here.
    pub(crate) known: &'a [Known],
}

impl<'b> BranchPoint<'_, 'b> {
    /// The run after the call, with this mishap at it and, if `gone` is given, with that process exiting first.
    pub(crate) fn branch(
        &self,
        tried: Tried,
        gone: Option<Name>,
        mishap: Mishap,
    ) -> Result<Position<'b>, AllocError>
        requires fit { IsFit self.now.run.now }
        requires due { IsDue self.now }
        requires moment { pattern_of tried (self.now.run.now.made + 1) ≡ with_mishap mishap (moment_of gone) }
        ensures { IfOk result (IsLater (record self.now.run.now { tried = tried }) self.now.due.now (with_mishap mishap (moment_of gone))) }
    {
        match (gone, mishap) {
            (None, Mishap::Exit(name, _)) => self.run.branch(self.due, tried, &[name], None),
            (None, Mishap::Fail(fate)) => self.run.branch(self.due, tried, &[], Some(fate)),
            (Some(gone), Mishap::Exit(name, _)) => {
                self.run.branch(self.due, tried, &[gone, name], None)
            }
            (Some(gone), Mishap::Fail(fate)) => {
                self.run.branch(self.due, tried, &[gone], Some(fate))
            }
        }
    }
}
