//! Runs on their way.
ghost use Rattle.std.specs.Prelude.{◌≡◌, ◌≤◌, ◌<◌, ◌+◌, ◌⊎◌, ◌∷◌, [], IsTrue, IfOk, IfErr, IfSome, IfNone};
ghost use Rattle.definitions.specs.Calls.{after_exits};
ghost use Rattle.definitions.specs.Calls.{step_with};
ghost use Rattle.call_replies.specs.Replies.{is_listed};
ghost use Rattle.plan_walk.specs.Path.{IsOver};
ghost use Rattle.definitions.specs.Table.{IsFormed};
ghost use Rattle.call_laws.specs.Lengths.{plan_length};
ghost use Rattle.definitions.specs.Run.{Progress};
ghost use Rattle.handover_text.specs.Reading.{handed_by};
ghost use Rattle.kernel_model.specs.Room.{LacksNumbers};
ghost use Rattle.plan_walk.specs.Course.{trail_on};
ghost use Rattle.plan_walk.specs.Walk.{AsksFor};
ghost use Rattle.plan_executor.specs.Naming.{listed};
ghost use Rattle.plan_executor.specs.Prepared.{IsPlanFor};
ghost use Rattle.explorer.specs.Events.{pattern_of, mishaps_at, waiting};
ghost use Rattle.explorer.specs.Positions.{IsFit, IsAt, IsQuietFrom, IsStartOf, IsLater};
ghost use Rattle.explorer.specs.Branching.{report_of_run};
ghost use Rattle.explorer.specs.Searched.{AreSearched};

use crate::effects;
use crate::events::{Mishap, Tried};
use crate::findings::{Findings, low_after};
use kernel_model::Kernel;
use kernel_pattern::Moment;
use plan_executor::{EnactRefusal, heir_of, reserved_copy};
use plan_walk::{Course, Due, Turns};
use rollback_plan::Plan;
use service_state::Record;
use std::alloc::{AllocError, Global};
use vocabulary::{Entry, Fate, Name, Report, Target};

/// The run of a target in which this goes wrong, after so many calls: the kernel as they left it, how far the plan was
/// followed, by which turns, and the master that has yet to take over.
#[derive(Drop)]
pub(crate) struct Position<'a> {
    pub(crate) first: &'a Kernel,
    pub(crate) state: &'a Record,
    pub(crate) target: &'a Target,
    pub(crate) text: &'a [u8],
    pub(crate) tried: Tried,
    pub(crate) made: u32,
    pub(crate) course: Course<'a>,
    pub(crate) kernel: Kernel,
    pub(crate) heir: Option<u32>,
}

impl<'a> Position<'a> {
    /// Before the first call of the run by these turns, where nothing goes wrong. The plan is the target's.
    pub(crate) fn start(
        first: &'a Kernel,
        state: &'a Record,
        target: &'a Target,
        turns: &'a Turns,
        plan: &'a Plan,
    ) -> Result<Position<'a>, EnactRefusal>
        requires { IsPlanFor state.now target.now plan.now }
        ensures start { IfOk result (IsStartOf first.now.table state.now target.now turns.now) }
        ensures formed { IfOk result (λ _. IsFormed first.now.table) }
        ensures numbers { IfOk result (λ _. LacksNumbers first.now.table (plan_length state.now target.now) → ⊥) }
        ensures refused { IfErr result (λ why.
            (why ≡ EnactRefusal.Memory) ⊎ ((why ≡ EnactRefusal.NoNumbers) × LacksNumbers first.now.table (plan_length state.now target.now))) }
    {
        Ok(Position {
            first,
            state,
            target,
            text: plan.text(),
            tried: Tried::Nothing,
            made: 0,
            course: Course::new(plan, turns),
            kernel: reserved_copy(first, plan.longest())?,
            heir: heir_of(state, target),
        })
    }

    /// The call that is due; none where the run is over.
    pub(crate) fn due(&self) -> Option<Due>
        ensures some { IfSome result (λ due. AsksFor (trail_on self.now.course) due.by due.call) }
        ensures none { IfNone result (IsOver (trail_on self.now.course).rest) }
    {
        self.course.due()
    }

    /// What can go wrong at the call that is due. Only processes with a higher number than `above` exit.
    pub(crate) fn mishaps(
        &self,
        alloc: Global,
        due: &Due,
        above: u32,
    ) -> Result<Vec<Mishap>, AllocError>
        ensures { IfOk result (λ mishaps. mishaps.items ≡ mishaps_at (handed_by self.now.text.now) due.now.by due.now.call (waiting due.now.call (listed self.now.heir)) above self.now.kernel.table) }
    {
        let heir = effects::waiting(&due.call, self.heir);
        effects::mishaps_at(alloc, &self.kernel, due, self.text, heir, above)
    }

    /// Makes the call that is due, in its moment of the run: these exit before it, and so it fails.
    pub(crate) fn make(&mut self, due: &Due, exits: &[Name], fate: Option<Fate>)
        requires fit { IsFit self.old }
        requires due { AsksFor (trail_on self.old.course) due.now.by due.now.call }
        requires moment { pattern_of self.old.tried (self.old.made + 1) ≡ record { exits = exits.now; fate = fate } }
        ensures { IsLater self.old due.now (record { exits = exits.now; fate = fate }) self.new }
    {
        let entry = answered(&mut self.kernel, due, self.text, exits, fate);
        self.course = self.course.after(&entry);
        self.made += 1;
        self.heir = effects::waiting(&due.call, self.heir);
    }

    /// The run with these events, which is the same so far, after the call that is due: these exit before it, and so it
    /// fails.
    pub(crate) fn branch(
        &self,
        due: &Due,
        tried: Tried,
        exits: &[Name],
        fate: Option<Fate>,
    ) -> Result<Position<'a>, AllocError>
        requires fit { IsFit self.now }
        requires due { AsksFor (trail_on self.now.course) due.now.by due.now.call }
        requires moment { pattern_of tried (self.now.made + 1) ≡ record { exits = exits.now; fate = fate } }
        ensures { IfOk result (IsLater (record self.now { tried = tried }) due.now (record { exits = exits.now; fate = fate })) }
    {
        let mut kernel = effects::copied(&self.kernel, self.kernel.room())?;
        let entry = answered(&mut kernel, due, self.text, exits, fate);
        Ok(Position {
            first: self.first,
            state: self.state,
            target: self.target,
            text: self.text,
            tried,
            made: self.made + 1,
            course: self.course.after(&entry),
            kernel,
            heir: effects::waiting(&due.call, self.heir),
        })
    }

    /// Makes all calls that are left, in whose moments nothing goes wrong, and gives the report of the run. What is found
    /// on the way is noted.
    pub(crate) fn finish(mut self, found: &mut Findings) -> Result<Report, AllocError>
        requires fit { IsFit self }
        requires quiet { IsQuietFrom self.made (pattern_of self.tried) }
        ensures report { (p : Progress) → IsAt self.entry p → IfOk result (λ report. report ≡ report_of_run self.entry self.entry.tried) }
        ensures found { found.new.tally ≡ found.old.tally }
        ensures searched { (p : Progress) → IsAt self.entry p → IfOk result (λ _. AreSearched self.entry p (self.entry.tried ∷ []) found.old found.new) }
    {
        let mut low = found.look(&self.kernel, 0, &self.tried, self.made)?;
        while let Some(due) = self.due() {
            self.make(&due, &[], None);
            let after = low_after(&due.call, low);
            low = found.look(&self.kernel, after, &self.tried, self.made)?;
        }
        Ok(self.course.report())
    }
}

/// A call, before which these exit and which so fails, with its answer.
fn answered(
    kernel: &mut Kernel,
    due: &Due,
    text: &[u8],
    exits: &[Name],
    fate: Option<Fate>,
) -> Entry
    requires { 1 ≤ kernel.old.room }
    ensures entry { result ≡ record { by = due.now.by; call = due.now.call; answer = result.answer } }
    ensures step { record { answer = result.answer; table = kernel.new.table } ≡ step_with (handed_by text.now) due.now.by due.now.call fate (after_exits exits.now kernel.old.table) }
    ensures listed { IsTrue (is_listed due.now.call result.answer) }
    ensures room { kernel.new.room + 1 ≡ kernel.old.room }
{
    let moment = Moment { exits, fate };
    let answer = kernel.call(due.by, &due.call, text, &moment);
    Entry {
        by: due.by,
        call: due.call,
        answer,
    }
}
