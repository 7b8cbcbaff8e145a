//! A transcript, replayed entry by entry.
ghost use Rattle.std.specs.Prelude.{◌≡◌, ◌+◌, ◌↔◌, List, [], IsTrue, IfOk, IfErr};
ghost use Rattle.definitions.specs.Plans.{Turn};
ghost use Rattle.handover_text.specs.Reading.{handed_by};
ghost use Rattle.plan_walk.specs.Path.{Asks};
ghost use Rattle.rollback_plan.specs.Plans.{length_of, sides_told, text_of};
ghost use Rattle.plan_walk.specs.Walk.{trail_under, sides_in, IsTurnOf};
ghost use Rattle.plan_executor.specs.Naming.{listed};
ghost use Rattle.certifier.specs.Places.{start_of, planned_start, EndsBadly, EndsWell, HasRoom, HasTaken, IsNextFor, IsTaken};

use crate::sameness::{is_same_answer, is_same_call, is_same_report};
use crate::showing::show;
use crate::turns_used::TurnsUsed;
use kernel_model::{Kernel, Pattern, Section};
use mismatches::Mismatch;
use plan_executor::{executing_after, names_executing};
use plan_walk::Walk;
use rollback_plan::Plan;
use std::alloc::{AllocError, Global};
use vocabulary::{Entry, Report, Turn};

/// How far a transcript has been replayed, and the pattern and the turns that its entries have shown so far.
#[derive(Drop)]
pub(crate) struct Replay<'a> {
    pub(crate) walk: Walk<'a>,
    pub(crate) kernel: Kernel,
    pub(crate) text: &'a [u8],
    /// The executing master, by its image.
    pub(crate) executing: Option<u32>,
    /// The image of the master that takes over.
    pub(crate) heir: Option<u32>,
    pub(crate) pattern: Pattern,
    pub(crate) turns: TurnsUsed,
    /// How many entries there were.
    pub(crate) number: u32,
}

/// The section that explains a run, and the kernel as the run leaves it.
#[derive(Drop)]
pub(crate) struct Certificate {
    pub(crate) section: Section,
    pub(crate) kernel: Kernel,
}

/// Whether an entry is the plan's next step at this turn.
fn asks(walk: &Walk<'_>, turn: Turn, entry: &Entry) -> bool
    ensures { (turns : List Turn) → IsTurnOf walk.now turn turns → (IsTrue result ↔ Asks (trail_under walk.now turns).rest (trail_under walk.now turns).lacked entry.now) }
{
    match walk.due_at(turn) {
        Some(due) => due.by == entry.by && is_same_call(&due.call, &entry.call),
        None => false,
    }
}

impl<'a> Replay<'a> {
    /// Before the first entry, on a kernel with room for the plan's longest path.
    pub(crate) fn new(
        alloc: Global,
        plan: &'a Plan,
        kernel: Kernel,
        image: u32,
        heir: Option<u32>,
    ) -> Replay<'a>
        requires { kernel.room ≡ length_of plan.now }
        ensures start { start_of result ≡ planned_start plan.now kernel.table image }
        ensures text { result.text.now ≡ text_of plan.now }
        ensures heir { result.heir ≡ heir }
        ensures sides { sides_in result.walk ≡ sides_told plan.now }
        ensures room { result.kernel.room ≡ kernel.room }
        ensures taken { HasTaken (handed_by result.text.now) (listed result.heir) (sides_in result.walk) (start_of result) [] result }
    {
        Replay {
            walk: Walk::new(plan),
            kernel,
            text: plan.text(),
            executing: Some(image),
            heir,
            pattern: Pattern::new(alloc),
            turns: TurnsUsed::none(alloc),
            number: 0,
        }
    }

    /// Replays one entry more, under the moment that it shows; whether it can stand there.
    pub(crate) fn take(&mut self, entry: &Entry) -> Result<bool, AllocError>
        requires { HasRoom self.old }
        ensures next { IfOk result (λ next. IsTrue next ↔ IsNextFor self.old entry.now) }
        ensures taken { IfOk result (λ next. IsTrue next → IsTaken self.old entry.now self.new) }
        ensures left { IfOk result (λ next. IsTrue next → self.new.kernel.room + 1 ≡ self.old.kernel.room) }
    {
        let turn = self.walk.turn_of(entry);
        if !asks(&self.walk, turn, entry) {
            return Ok(false);
        }
        let number = self.number + 1;
        show(&self.kernel, self.text, number, entry, &mut self.pattern)?;
        let moment = self.pattern.moment(number);
        if names_executing(moment.exits, &entry.call, self.executing, self.heir) {
            return Ok(false);
        }
        let answer = self.kernel.call(entry.by, &entry.call, self.text, &moment);
        if !is_same_answer(&answer, &entry.answer) {
            return Ok(false);
        }
        self.turns.follow(&self.walk, turn)?;
        self.walk = self.walk.after_at(turn, entry);
        self.executing = executing_after(&entry.call, self.executing, self.heir);
        self.number = number;
        Ok(!self.walk.is_lost())
    }

    /// The section that was shown.
    pub(crate) fn shown(self) -> Section
        ensures pattern { result.pattern ≡ self.entry.pattern }
        ensures turns { result.turns ≡ self.entry.turns.told }
    {
        Section {
            pattern: self.pattern,
            turns: self.turns.told,
        }
    }

    /// The section that was shown and the kernel, where the plan is at an end and the report is the run's.
    pub(crate) fn end(self, report: &Report) -> Result<Certificate, Mismatch>
        ensures ok { IfOk result (λ it. EndsWell self.entry report.now it.section) }
        ensures kernel { IfOk result (λ it. it.kernel ≡ self.entry.kernel) }
        ensures err { IfErr result (EndsBadly self.entry report.now) }
    {
        if !self.walk.is_over() {
            return Err(Mismatch::Short);
        }
        if !is_same_report(&self.walk.report(), report) {
            return Err(Mismatch::Report);
        }
        Ok(Certificate {
            section: Section {
                pattern: self.pattern,
                turns: self.turns.told,
            },
            kernel: self.kernel,
        })
    }
}
