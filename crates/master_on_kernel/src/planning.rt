//! `plan`: what a control word would do.
ghost use Rattle.std.specs.Prelude.{◌≡◌, IfOk, IfErr};
ghost use Rattle.service_state.specs.Targets.{IsTarget};
ghost use Rattle.faults.specs.Faults.{IsDue};
ghost use Rattle.master_on_kernel.specs.Outlooks.{shown, Tells, IsPlanned, IsOutlook, IsForeseen};
ghost use Rattle.word_runner.specs.Asking.{IsPossible};
ghost use Rattle.master_on_kernel.specs.Starts.{record_at};

use crate::start::{Start, silent_workers};
use control_words::Word;
use faults::Fault;
use plan_text::{write_graph, write_plan};
use reload_planner::PlanRefusal;
use rollback_plan::Plan;
use service_state::Record;
use std::alloc::{AllocError, Global};
use transcript::write_body;
use vocabulary::Target;
use word_runner::{Asked, Body, CodeText, asked_by, body_status, note};
use worker_table::WorkerTable;

/// How a plan is shown.
#[derive(Clone, Copy)]
pub enum Form {
    /// A line for each step.
    Text,
    /// The input of Graphviz.
    Picture,
}

/// What there is to show of a word, and the exit status that goes with it.
#[derive(Drop)]
pub struct Outlook {
    pub text: Vec<u8>,
    pub status: u8,
}

/// The plan of a word for a master that has just started, `nothing`, or `refused` with its code.
/// What the word asks is found out as when it is carried out.
pub fn look_ahead(alloc: Global, start: &Start, word: Word, form: Form) -> Result<Outlook, Fault>
    ensures ok { IfOk result (IsForeseen start.now word form) }
    ensures err { IfErr result (IsDue (record_at start.now)) }
{
    let record = start.record()?;
    let mut workers = silent_workers(alloc, &record)?;
    let asked = asked_by(word, &record, &workers, Some(&start.next));
    Ok(outlook_of(alloc, asked, &record, &mut workers, form)?)
}

/// What there is to show of what a word asks of a master.
fn outlook_of(
    alloc: Global,
    asked: Asked,
    record: &Record,
    workers: &mut WorkerTable,
    form: Form,
) -> Result<Outlook, AllocError>
    requires { IsPossible asked }
    ensures { IfOk result (IsOutlook asked record.now workers.old form) }
{
    match asked {
        Asked::Act(target) => planned(alloc, record, &target, form),
        Asked::Beat(heard) => told(alloc, &note(workers, heard)),
        Asked::Nothing => told(alloc, &Body::Nothing),
        Asked::Refused(code) => told(alloc, &Body::Refused(code)),
    }
}

/// What a word comes to that has no plan, and the status that it has when it is carried out.
pub fn told(alloc: Global, body: &Body) -> Result<Outlook, AllocError>
    ensures { IfOk result (Tells body.now) }
{
    let mut text = Vec::new(alloc);
    write_body(&mut text, body)?;
    Ok(Outlook {
        text,
        status: body_status(body),
    })
}

/// The plan of a target, or the code with which it is refused.
fn planned(
    alloc: Global,
    state: &Record,
    target: &Target,
    form: Form,
) -> Result<Outlook, AllocError>
    requires { IsTarget target.now }
    ensures { IfOk result (IsPlanned state.now target.now form) }
{
    match upgrade_planner::plan_target(alloc, state, target) {
        Ok(plan) => Ok(Outlook {
            text: shown(alloc, &plan, form)?,
            status: 0,
        }),
        Err(PlanRefusal::Memory) => Err(AllocError),
        Err(refusal) => {
            let code = CodeText::of(refusal.code(), "");
            told(alloc, &Body::Refused(code))
        }
    }
}

fn shown(alloc: Global, plan: &Plan, form: Form) -> Result<Vec<u8>, AllocError>
    ensures { IfOk result (λ text. text.items ≡ shown form plan.now) }
{
    match form {
        Form::Text => write_plan(alloc, plan),
        Form::Picture => write_graph(alloc, plan),
    }
}
