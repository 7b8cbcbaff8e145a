//! The programs of the children of an edge, from their first line to their end.
ghost use Rattle.std.specs.Prelude.{ℕ, ◌≡◌, Option, None, Some, List, IfOk};
ghost use Rattle.std.specs.Io.KnownBytes.{Keeps};
ghost use Rattle.child_processes.specs.NextLine.{unheard};
ghost use Rattle.child_programs.specs.Worker.{Obeys};
ghost use Rattle.child_programs.specs.Served.{if_more, IsNextLine, IsObeyed, IsServed};
ghost use Rattle.child_edge.specs.declared.edge.Edge.{Edge as Edged};
ghost use Rattle.child_programs.specs.declared.answering.Refusing.{Refusing as Refuser};
ghost use Rattle.child_programs.specs.Adopting.{AnswersByEdge, AnswersNothing, BeatsByEdge, BeatsNobody, IsReceived, IsServedBy, IsServedAsMaster};

use crate::answering::{Answers, Refusing};
use crate::handover_lines::{HandoverLines, Part};
use crate::hearing::Hears;
use crate::master::NewMaster;
use crate::saying::act;
use crate::worker::WorkerProgram;
use child_edge::Edge;
use child_family::{Family, Heard};
use child_processes::LineReader;
use plain_text::Line;
use std::alloc::Global;
use std::io;
use std::io::{ErrorKind, Read, Write};

/// For how many workers at once a new master takes memory before it takes over: for a reload and its draining workers at
/// the limit of 1,024. Only where there were more could a start want for memory.
const ROOM: u32 = 4096;

/// Hears a line, and does what is to be done. The exit status where the program ends then.
fn obey<H: Hears, O: Write>(program: &mut H, line: &[u8], output: &mut O) -> Option<u8>
    ensures { IsObeyed H.hears program.old (O.contents output.old) line.now result program.new (O.contents output.new) }
{
    let mut answer = Line::new();
    let step = program.hear(line, &mut answer);
    act(step, &mut answer, output)
}

/// Hears the next line, and whether there is one. One that is too long is heard as an empty one, which no program can be
/// told. The only refusal is that of a read.
fn next_line<I: Read + Drop>(lines: &mut LineReader<I>, line: &mut Line) -> io::Result<bool>
    ensures { IfOk result (λ more. IsNextLine (unheard I.remaining lines.old) (if_more more line.new) (unheard I.remaining lines.new)) }
{
    match lines.hear(line)? {
        Heard::Ended => return Ok(false),
        Heard::TooLong => line.clear(),
        Heard::Line => {}
    }
    Ok(true)
}

/// Hears lines up to the end of input, or to one at which the program ends. A read that fails ends the program with
/// status 1.
fn serve<H: Hears, I: Read + Drop, O: Write>(
    program: &mut H,
    lines: &mut LineReader<I>,
    output: &mut O,
) -> u8
    ensures { IsServed H.hears (unheard I.remaining lines.old) program.old (O.contents output.old) result program.new (O.contents output.new) }
{
    let mut line = Line::new();
    for _ in 0..u64::MAX {
        match next_line(lines, &mut line) {
            Ok(true) => {}
            Ok(false) => return 0,
            Err(_) => return 1,
        }
        if let Some(status) = obey(program, line.bytes(), output) {
            return status;
        }
    }
    1
}

/// A worker on pipes. Gives the exit status: 0 after `quit` and at the end of input, and 1 at a line that it can't be told
/// ([`WorkerProgram::hear`]), one of more than 4,096 bytes too, and where a read fails or an answer can't be written.
pub fn serve_worker<I: Read + Drop, O: Write>(input: I, output: &mut O) -> u8
    ensures { (unread : Option (List ℕ)) × (start : Option ℕ)
        × Keeps (I.remaining input) unread
        × IsServed Obeys unread None (O.contents output.old) result start (O.contents output.new) }
{
    serve(
        &mut WorkerProgram::new(),
        &mut LineReader::new(input),
        output,
    )
}

/// How a new master ended.
#[derive(Drop)]
pub struct ServedMaster<F: Family + Drop> {
    /// The exit status.
    pub status: u8,
    /// Its children. None where there was no memory to begin; it had no child then.
    pub family: Option<F>,
}

/// What came of the lines of a handover.
#[derive(Drop)]
enum Received {
    /// All of them.
    Whole(HandoverLines),
    /// A line that asks for an answer came before the last one.
    Broken(HandoverLines),
    /// The input ended before the last one.
    Ended,
}

/// Hears the lines of a handover. One that is too long is taken as an empty one, which no handover has. The last line
/// that was heard is in `line` then. Want of memory and a read that fails are refusals.
fn receive<I: Read + Drop>(
    alloc: Global,
    lines: &mut LineReader<I>,
    line: &mut Line,
) -> io::Result<Received>
    ensures { IfOk result (IsReceived (unheard I.remaining lines.old) line.new (unheard I.remaining lines.new)) }
{
    let mut handover = HandoverLines::new(alloc)?;
    for _ in 0..u64::MAX {
        if !next_line(lines, line)? {
            return Ok(Received::Ended);
        }
        match handover.take(line.bytes())? {
            Part::More => {}
            Part::Whole => return Ok(Received::Whole(handover)),
            Part::Other => return Ok(Received::Broken(handover)),
        }
    }
    Err(io::Error::from(ErrorKind::Other))
}

/// Serves as a master that takes over, on its edge.
fn serve_adopted<F: Family + Drop, I: Read + Drop, O: Write>(
    edge: Edge<F>,
    handover: HandoverLines,
    lines: &mut LineReader<I>,
    output: &mut O,
) -> ServedMaster<F>
    ensures { (last : Edged F ⟦<F as Family>⟧) × (result.family ≡ Some last.family) × IsServedBy (AnswersByEdge ⟦<F as Family>⟧) (BeatsByEdge ⟦<F as Family>⟧) edge (unheard I.remaining lines.old) (O.contents output.old) result.status last (O.contents output.new) }
{
    let mut master = NewMaster::new(edge, handover);
    let status = serve(&mut master, lines, output);
    ServedMaster {
        status,
        family: Some(master.into_answers().into_family()),
    }
}

/// Serves as a master whose handover was faulty.
fn serve_refusing<I: Read + Drop, O: Write>(
    handover: HandoverLines,
    lines: &mut LineReader<I>,
    output: &mut O,
) -> u8
    ensures { (first : Refuser) × (last : Refuser) × IsServedBy AnswersNothing BeatsNobody first (unheard I.remaining lines.old) (O.contents output.old) result last (O.contents output.new) }
{
    let mut master = NewMaster::new(Refusing, handover);
    serve(&mut master, lines, output)
}

/// Serves as a master whose handover was broken off by this line, which is answered first.
fn serve_broken<I: Read + Drop, O: Write>(
    handover: HandoverLines,
    line: &[u8],
    lines: &mut LineReader<I>,
    output: &mut O,
) -> u8
    ensures { (unread : Option (List ℕ)) → IsNextLine unread (Some line.now) (unheard I.remaining lines.old)
        → (first : Refuser) × (last : Refuser) × IsServedBy AnswersNothing BeatsNobody first unread (O.contents output.old) result last (O.contents output.new) }
{
    let mut master = NewMaster::new(Refusing, handover);
    if let Some(status) = obey(&mut master, line, output) {
        return status;
    }
    serve(&mut master, lines, output)
}

/// A new master on pipes. It reads the handover up to its line `end`, and then makes the calls that it is told
/// ([`NewMaster::hear`]). Where the handover is faulty it took nothing over: `adopt` is refused, and for each other call
/// the master is gone. A line that asks for an answer ends a handover that has no line `end`, which is faulty then, and is
/// answered.
///
/// The exit status is 0 at the end of input, and 1 at a line that it can't be told, where a read fails or an answer can't
/// be written, and for want of memory. Its children are still there: they end with their input.
pub fn serve_master<F: Family + Drop, I: Read + Drop, O: Write>(
    alloc: Global,
    family: F,
    pid: u32,
    input: I,
    output: &mut O,
) -> ServedMaster<F>
    ensures { (unread : Option (List ℕ)) × Keeps (I.remaining input) unread × IsServedAsMaster ⟦<F as Family>⟧ family pid unread (O.contents output.old) result (O.contents output.new) }
{
    let mut lines = LineReader::new(input);
    let mut line = Line::new();
    let status = match receive(alloc, &mut lines, &mut line) {
        Ok(Received::Whole(handover)) => match handover_text::read(handover.text()) {
            Ok(told) => {
                let Ok(edge) = Edge::adopt(alloc, family, &told, pid, ROOM) else {
                    return ServedMaster {
                        status: 1,
                        family: None,
                    };
                };
                return serve_adopted(edge, handover, &mut lines, output);
            }
            Err(_) => serve_refusing(handover, &mut lines, output),
        },
        Ok(Received::Broken(handover)) => {
            serve_broken(handover, line.bytes(), &mut lines, output)
        }
        Ok(Received::Ended) => 0,
        Err(_) => 1,
    };
    ServedMaster {
        status,
        family: Some(family),
    }
}
