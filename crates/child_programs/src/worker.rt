//! A worker that obeys.
ghost use Rattle.std.specs.Prelude.{◌≡◌, ◌<◌, Some, None, length};
ghost use Rattle.child_programs.specs.Response.{response_of, HasRoom};
ghost use Rattle.child_programs.specs.WorkerLines.{line_of};
ghost use Rattle.child_programs.specs.Worker.{beat_line, beating, obeyed, start_after};

use crate::hearing::{Hears, Reaction};
use crate::lines::write_text;
use crate::worker_lines::{WorkerLine, read_worker_line};
use plain_text::Line;
use std::marker::Model;

/// A worker: the number of its start, once it was told that. Contracts see this number.
#[derive(Drop)]
pub struct WorkerProgram {
    start: Option<u32>,
}

impl Model for WorkerProgram {
    ghost use Rattle.std.specs.Prelude.{ℕ, Option};

    ghost Value = { Option ℕ };

    ghost view = { λ worker. worker.start };
}

/// Makes a line of the answer to a moment.
fn write_beat(line: &mut Line, now: u64, start: u32)
    ensures text { line.new ≡ beat_line now start }
    ensures room { length line.new < 4096 }
{
    line.clear();
    line.put(b"beat ");
    line.put_number(now);
    line.put(b" ");
    line.put_number(u64::from(start));
}

impl WorkerProgram {
    /// A worker that was told nothing yet.
    pub fn new() -> WorkerProgram
        ensures { result ≡ None }
    {
        WorkerProgram { start: None }
    }

    /// Answers to a moment. Without a start it can't.
    fn beat(&self, now: u64, answer: &mut Line) -> Reaction
        ensures response { response_of result answer.new ≡ beating now self.now }
        ensures room { HasRoom (response_of result answer.new) }
    {
        match self.start {
            Some(start) => {
                write_beat(answer, now, start);
                Reaction::Says
            }
            None => Reaction::Fails,
        }
    }

    fn obey(&mut self, line: WorkerLine, answer: &mut Line) -> Reaction
        ensures response { response_of result answer.new ≡ obeyed self.old (Some line) }
        ensures start { self.new ≡ start_after self.old (Some line) }
        ensures room { HasRoom (response_of result answer.new) }
    {
        match line {
            WorkerLine::Named(_, _, start) => {
                self.start = Some(start);
                Reaction::Quiet
            }
            WorkerLine::Listener(_) | WorkerLine::Usr1 | WorkerLine::Close(_) => Reaction::Quiet,
            WorkerLine::Go => {
                write_text(answer, b"ready");
                Reaction::Says
            }
            WorkerLine::Ping => {
                write_text(answer, b"pong");
                Reaction::Says
            }
            WorkerLine::Tick(now) => self.beat(now, answer),
            WorkerLine::Quit => {
                write_text(answer, b"gone");
                Reaction::Leaves
            }
        }
    }

    /// Hears a line, without its newline: says `ready` to `go`, `pong` to `ping`, `beat NOW START` to `tick NOW`, and
    /// `gone` to `quit`, and then ends; to `worker I.C NR START`, of which it keeps START, `listener ADDRESS`, `usr1` and
    /// `close ADDRESS` it says nothing. At any other line it fails, and at a moment where it was not told its start.
    pub fn hear(&mut self, line: &[u8], answer: &mut Line) -> Reaction
        ensures response { response_of result answer.new ≡ obeyed self.old (line_of line.now) }
        ensures start { self.new ≡ start_after self.old (line_of line.now) }
        ensures room { HasRoom (response_of result answer.new) }
    {
        match read_worker_line(line) {
            Some(line) => self.obey(line, answer),
            None => Reaction::Fails,
        }
    }
}

impl Hears for WorkerProgram {
    ghost use Rattle.child_programs.specs.Worker.{Obeys};

    ghost hears = { Obeys };

    fn hear(&mut self, line: &[u8], answer: &mut Line) -> Reaction {
        self.hear(line, answer)
    }
}
