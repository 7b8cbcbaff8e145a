//! Control words from an input, with their blocks on an output.
ghost use Rattle.std.specs.Prelude.{◌≡◌, ◌≤◌, List, IfOk, IsOk, IsErr, IsErrOf, IsTrue, OnOk};
ghost use Rattle.std.specs.Io.KnownBytes.{Appends};
ghost use Rattle.transcript.specs.Block.{transcript_text};
ghost use Rattle.word_runner.specs.Status.{status_after, gravest};
ghost use Rattle.word_runner.specs.declared.block.Block.{Block as Done};
ghost use Rattle.master_on_children.specs.Faults.{status_or_fault};
ghost use Rattle.master_on_children.specs.Typed.{Typed};
ghost use Rattle.master_on_children.specs.Lines.{IsHeardOut, AreCutShort, IsRun, IsShortRun};
ghost use Rattle.master_on_children.specs.Starts.{IsWritten, IsSupervised};

use crate::fault::Halt;
use crate::master::Master;
use crate::said::Said;
use crate::{NextSettings, Summary, SupervisorFault};
use child_family::{Family, pid_text};
use log::{Log, info};
use std::alloc::Global;
use std::io::{Read, Write};
use transcript::write_transcript;
use vocabulary::Settings;
use word_runner::{graver, status_of};
use worker_table::WorkerTable;

/// What a supervisor begins with.
#[derive(Clone, Copy)]
pub struct SupervisorStart {
    pub settings: Settings,
    /// The own process number, at least 1. It is that of the record throughout.
    pub pid: u32,
}

/// Who attends a supervisor: what they type, and the log that they read.
#[derive(Drop)]
pub struct Operator<I: Read + Drop, L: Log + Drop> {
    /// Control words, one in each line.
    pub input: I,
    /// A line for each block, and one for each question that a plan asks.
    pub log: L,
}

/// What comes of a supervisor.
#[derive(Drop)]
pub struct Supervised<F: Family + Drop> {
    /// The family, with the children that it still has: those of a new master, and after a fault all that there were.
    pub family: F,
    /// The exit status: 1 where a word was refused, unread or lost, else 4 for a Degraded, else 3 for a RolledBack, else
    /// 0.
    pub status: Result<u8, SupervisorFault>,
}

/// Carries the control words of the input's lines out on the children of a family.
///
/// It writes the pid file, where there is a path for it, and acts on the word `tick 0` without any worker. Then it acts
/// on each line, whose blocks are written and flushed before the next line is acted on, and logged in a line each. A line
/// that is no word is a block of its own. At the end of the input a master that runs is told to quit.
///
/// A question of a plan is answered from the input: the next `WINCH` or `QUIT` lets it go on, the next `HUP`, the end of
/// the input or a read that fails has it go back. Other lines that come meanwhile wait, in order; once 64 wait, the plan
/// goes back. A read that fails while it asks is a fault once the lines that wait were acted on.
///
/// Faults: want of memory, a line that cannot be read, a block or a pid file that cannot be written. It ends with the
/// first; what was written before stays written.
pub fn supervise_on<F: Family + Drop, N: NextSettings, I: Read + Drop, L: Log + Drop, O: Write>(
    alloc: Global,
    mut family: F,
    start: &SupervisorStart,
    next: &mut N,
    operator: Operator<I, L>,
    output: &mut O,
) -> Supervised<F>
    requires { 1 ≤ start.now.pid }
    ensures { IfOk result.status (λ status. (blocks : List Done)
        × IsSupervised L ⟦<F as Family>⟧ I.remaining N.reads start.now.settings start.now.pid family operator.input next.old blocks next.new result.family
        × Appends (O.contents output.old) (O.contents output.new) (transcript_text blocks)
        × (status ≡ gravest blocks)) }
{
    let Ok(workers) = WorkerTable::new(alloc) else {
        return Supervised {
            family,
            status: Err(SupervisorFault::Memory),
        };
    };
    if !write_pid(&mut family, start) {
        return Supervised {
            family,
            status: Err(SupervisorFault::File),
        };
    }
    let mut master = Master::begin(alloc, family, start, operator, workers);
    let followed = follow(alloc, &mut master, next, output);
    let status = status_or_fault(followed);
    Supervised {
        family: master.into_family(),
        status,
    }
}

/// The status, or the fault that is told in place of it.
fn status_or_fault(followed: Result<u8, Halt>) -> Result<u8, SupervisorFault>
    ensures { result ≡ status_or_fault followed }
{
    match followed {
        Ok(status) => Ok(status),
        Err(halt) => Err(SupervisorFault::from(halt)),
    }
}

/// Writes the pid file, where there is a path for it; false where it could not be written.
fn write_pid<F: Family>(family: &mut F, start: &SupervisorStart) -> bool
    ensures { IsTrue result → IsWritten start.now.settings.pid start.now.pid (F.told family.old) (F.told family.new) }
{
    match &start.settings.pid {
        None => true,
        Some(path) => family.write_file(path, pid_text(start.pid).bytes()),
    }
}

/// Acts on the first tick, on each line and on their end, and gives the status of all blocks. Where a word wants memory,
/// what was acted on is told.
fn follow<F: Family + Drop, I: Read + Drop, L: Log + Drop, N: NextSettings, O: Write>(
    alloc: Global,
    master: &mut Master<F, I, L>,
    next: &mut N,
    output: &mut O,
) -> Result<u8, Halt>
    ensures run { IfOk result (λ status. (blocks : List Done)
        × IsRun I.remaining N.reads next.old master.old.standing blocks next.new master.new.standing
        × Appends (O.contents output.old) (O.contents output.new) (transcript_text blocks)
        × (status ≡ gravest blocks)) }
    ensures short { IsErrOf result Halt.Short → (blocks : List Done)
        × IsShortRun I.remaining N.reads next.old master.old.standing blocks next.new master.new.standing
        × Appends (O.contents output.old) (O.contents output.new) (transcript_text blocks) }
{
    let ticked = master.tick(0);
    let first = tell(alloc, 0, &ticked, output, master.log())?;
    let status = hear_all(alloc, first, master, next, output)?;
    let ended = master.end();
    let gravest = tell(alloc, status, &ended, output, master.log())?;
    Ok(gravest)
}

/// Acts on each line up to the end of the input, and gives the status of the blocks so far and of its own. Where a word
/// wants memory, what was acted on is told.
fn hear_all<F: Family + Drop, I: Read + Drop, L: Log + Drop, N: NextSettings, O: Write>(
    alloc: Global,
    before: u8,
    master: &mut Master<F, I, L>,
    next: &mut N,
    output: &mut O,
) -> Result<u8, Halt>
    ensures heard { IfOk result (λ status. (lines : List Typed) × (blocks : List Done)
        × IsHeardOut I.remaining N.reads lines next.old master.old.standing blocks next.new master.new.standing
        × Appends (O.contents output.old) (O.contents output.new) (transcript_text blocks)
        × (status ≡ status_after before blocks)) }
    ensures short { IsErrOf result Halt.Short → (lines : List Typed) × (blocks : List Done)
        × AreCutShort I.remaining N.reads lines next.old master.old.standing blocks next.new master.new.standing
        × Appends (O.contents output.old) (O.contents output.new) (transcript_text blocks) }
{
    let mut status = before;
    for _ in 0..u64::MAX {
        let next_line = master.standing.world.inbox.next_line()?;
        let Some(line) = next_line else {
            return Ok(status);
        };
        let said = master.hear(line, next);
        status = tell(alloc, status, &said, output, master.log())?;
    }
    Err(Halt::Fault(SupervisorFault::File))
}

/// Tells the blocks of what was said one after another, and gives the status then. Each is written in one write, flushed,
/// and logged in a line. Want of memory comes behind them.
fn tell<O: Write, L: Log>(
    alloc: Global,
    before: u8,
    said: &Said,
    output: &mut O,
    log: &L,
) -> Result<u8, Halt>
    ensures told { OnOk result (Appends (O.contents output.old) (O.contents output.new) (transcript_text said.now.blocks.items)) }
    ensures status { IfOk result (λ status. status ≡ status_after before said.now.blocks.items) }
    ensures whole { OnOk result (IsOk said.now.done) }
    ensures behind { IsErrOf result Halt.Short → Appends (O.contents output.old) (O.contents output.new) (transcript_text said.now.blocks.items) }
    ensures short { IsErrOf result Halt.Short → IsErr said.now.done }
{
    let mut status = before;
    for block in &said.blocks {
        let text = write_transcript(alloc, block)?;
        output.write_all(&text)?;
        output.flush()?;
        info!(log; target: "prefork", "{}", Summary(block));
        status = graver(status, status_of(block));
    }
    match said.done {
        Ok(()) => Ok(status),
        Err(_) => Err(Halt::Short),
    }
}
