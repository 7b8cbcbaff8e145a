//! A family of processes of the system.
use crate::limits::ChildLimits;
use crate::reader::LineReader;
use crate::watch::{Open, Watch};
use crate::writing::{remove, rename, write_whole};
use child_family::{Family, Heard, Role, StartFault};
use listener_set::FilePath;
use log::Log;
use log::sink::Discard;
use plain_text::Line;
use std::alloc::{AllocError, Global};
use std::io;
use std::io::ErrorKind;
use std::os::fd::AsRawFd;
use std::process::{Child, Command, OpenProcess, Processes, Stdio};
use std::rt::Files;
use std::time::{Clock, Duration};

/// The variable by which a new master is told the limit for an answer.
pub const ANSWER_WITHIN: &str = "PREFORK_ANSWER_WITHIN";

/// The variable by which it is told the limit for readiness.

pub const READY_WITHIN: &str = "PREFORK_READY_WITHIN";

/// Children that are processes of the system, told and heard over pipes. It tells none of its calls.
///
/// A child that was told `quit` and has ended is waited for of itself, at the start of another child or when another line
/// is said; its pipes are closed then, and its number may come again. Not when others are told to quit: what it says last
/// can be heard after that. A master that ends calls `finish`, which waits for all children.
///
/// With limits, a child that keeps its master waiting for too long is killed, and has ended by that. Without, as at first,
/// it is waited for as long as it takes.
#[derive(Drop)]
pub struct OsFamily<R: Processes + Files + Drop, L: Drop> {
    watch: Watch<R, L>,
    alloc: Global,
    program: String,
    command: Vec<String>,
    children: Vec<Option<Open<R::Started>>>,
    /// How many of them were told to quit.
    quitting: usize,
    /// The place that is looked at next for a child that has ended.
    next: usize,
}

impl<R: Processes + Files + Drop> OsFamily<R, Discard> {
    /// `program` is the executable: a worker is started as it with the word `child`, a master with `adopt`. Where
    /// `command` has words, a worker is started as them. The only refusal is want of memory.
    pub fn new(
        alloc: Global,
        rt: R,
        program: &str,
        command: &[String],
    ) -> Result<OsFamily<R, Discard>, AllocError> {
        let mut words = Vec::new(alloc);
        for word in command {
            words.push(word.clone()?)?;
        }
        Ok(OsFamily {
            watch: Watch {
                rt,
                limits: ChildLimits {
                    answer: 0,
                    ready: 0,
                },
                log: Discard,
                waited: Duration::ZERO,
            },
            alloc,
            program: String::from_str(alloc, program)?,
            command: words,
            children: Vec::new(alloc),
            quitting: 0,
            next: 0,
        })
    }

    /// The same with limits, before it has children. Each child that is killed by them is a line of the log.
    pub fn limited<L: Log + Drop>(self, limits: ChildLimits, log: L) -> OsFamily<R, L> {
        let OsFamily {
            watch,
            alloc,
            program,
            command,
            children,
            quitting,
            next,
        } = self;
        let Watch {
            rt,
            limits: _,
            log: _,
            waited,
        } = watch;
        OsFamily {
            watch: Watch {
                rt,
                limits,
                log,
                waited,
            },
            alloc,
            program,
            command,
            children,
            quitting,
            next,
        }
    }
}

impl<R: Processes + Files + Clock + Drop, L: Log + Drop> OsFamily<R, L>
where
    <R::Started as OpenProcess>::Stdout: AsRawFd,
    <R::Started as OpenProcess>::Stdin: AsRawFd,
{
    /// How many children it has that were not waited for.
    pub fn count(&self) -> usize {
        let mut count = 0usize;
        for place in &self.children {
            if place.is_some() {
                count = count.saturating_add(1);
            }
        }
        count
    }

    fn command_of(&self, role: &Role) -> Result<Command, AllocError> {
        let is_worker = matches!(role, Role::Worker { .. });
        match self.command.first() {
            Some(first) if is_worker => {
                let mut command = Command::new(self.alloc, first)?;
                command.args(self.command.iter().skip(1))?;
                Ok(command)
            }
            _ => {
                let mut command = Command::new(self.alloc, &self.program)?;
                command.arg(if is_worker { "child" } else { "adopt" })?;
                if !is_worker {
                    self.tell_limits(&mut command)?;
                }
                Ok(command)
            }
        }
    }

    /// Tells a new master the limits, in its environment: a program that knows none can be started too.
    fn tell_limits(&self, command: &mut Command) -> Result<(), AllocError> {
        let ChildLimits { answer, ready } = self.watch.limits;
        self.tell_limit(command, ANSWER_WITHIN, answer)?;
        self.tell_limit(command, READY_WITHIN, ready)
    }

    /// Tells one of them, in seconds; 0 is none.
    fn tell_limit(
        &self,
        command: &mut Command,
        name: &str,
        seconds: u32,
    ) -> Result<(), AllocError> {
        if seconds > 0 {
            let text = format!(in self.alloc; "{seconds}")?;
            command.env(name, text.as_str())?;
        }
        Ok(())
    }

    /// A child that was started and says its lines on that output; none was heard yet.
    fn opened(
        &self,
        child: Child<R::Started>,
        stdout: <R::Started as OpenProcess>::Stdout,
        role: &Role,
    ) -> Open<R::Started> {
        let told_at = match child.stdin.as_ref() {
            Some(stdin) => stdin.as_raw_fd(),
            None => -1,
        };
        if self.watch.limits.answer > 0 {
            os::set_nonblocking(told_at, true);
        }
        Open {
            child,
            role: *role,
            said_at: stdout.as_raw_fd(),
            told_at,
            heard: LineReader::new(stdout),
            told_to_quit: false,
            has_spoken: false,
            is_killed: false,
            asked: self.watch.waited,
        }
    }

    /// The lowest place without a child; a place behind the others where there is none.
    fn free_place(&self) -> usize {
        for place in 0..self.children.len() {
            if self.children[place].is_none() {
                return place;
            }
        }
        self.children.len()
    }

    fn open_mut(&mut self, id: u32) -> Option<&mut Open<R::Started>> {
        self.children.get_mut(id as usize)?.as_mut()
    }

    /// Keeps in mind that a child is told to quit.
    fn mark_quitting(&mut self, id: u32) {
        if self.was_told_to_quit(id as usize) {
            return;
        }
        if let Some(open) = self.open_mut(id) {
            open.told_to_quit = true;
            self.quitting = self.quitting.saturating_add(1);
        }
    }

    /// Takes a child out.
    fn take(&mut self, place: usize) -> Option<Open<R::Started>> {
        let open = self.children.get_mut(place)?.take()?;
        if open.told_to_quit {
            self.quitting = self.quitting.saturating_sub(1);
        }
        Some(open)
    }

    fn was_told_to_quit(&self, place: usize) -> bool {
        match self.children.get(place) {
            Some(Some(open)) => open.told_to_quit,
            _ => false,
        }
    }

    /// Takes a child out that was told to quit, where it has ended: it is waited for with that.
    fn reap(&mut self, place: usize) {
        let has_ended = match self.children.get_mut(place) {
            Some(Some(open)) => matches!(open.child.try_wait(), Ok(Some(_))),
            _ => false,
        };
        if has_ended {
            self.take(place);
        }
    }

    /// Waits for all children that were told to quit and have ended. Where none was told, it looks at none.
    fn reap_all(&mut self) {
        let mut left = self.quitting;
        for place in 0..self.children.len() {
            if left == 0 {
                return;
            }
            if self.was_told_to_quit(place) {
                self.reap(place);
                left -= 1;
            }
        }
    }

    /// Looks at one child, and at the next one the next time.
    fn reap_next(&mut self) {
        if self.next >= self.children.len() {
            self.next = 0;
        }
        let place = self.next;
        if self.was_told_to_quit(place) {
            self.reap(place);
        }
        self.next = place.saturating_add(1);
    }

    fn close_inputs(&mut self) {
        for place in 0..self.children.len() {
            if let Some(Some(open)) = self.children.get_mut(place) {
                open.child.stdin = None;
            }
        }
    }

    /// Closes the input of every child that it has, and then waits for the end of each; no more is heard of them. It has no
    /// children then. A child that does not end with its input is waited for as long as it runs, or as the limits say.
    pub fn finish(&mut self) {
        self.close_inputs();
        let since = self.watch.waited;
        for place in 0..self.children.len() {
            if let Some(open) = self.take(place) {
                self.end(open, since);
            }
        }
    }

    /// Waits for the end of a child. Its output is closed before, so that one which says more than a pipe holds can end.
    fn end(&mut self, open: Open<R::Started>, since: Duration) {
        let Open {
            mut child,
            role,
            heard,
            ..
        } = open;
        drop(heard);
        self.watch.await_end(&mut child, role, since);
    }
}

fn fault_of(error: &io::Error) -> StartFault {
    match error.kind() {
        ErrorKind::OutOfMemory => StartFault::NoMemory,
        ErrorKind::NotFound => StartFault::NoImage,
        _ => StartFault::Again,
    }
}

impl<R: Processes + Files + Clock + Drop, L: Log + Drop> Family for OsFamily<R, L>
where
    <R::Started as OpenProcess>::Stdout: AsRawFd,
    <R::Started as OpenProcess>::Stdin: AsRawFd,
{
    fn start(&mut self, role: &Role) -> Result<u32, StartFault> {
        self.reap_all();
        if self.children.reserve(1).is_err() {
            return Err(StartFault::NoMemory);
        }
        let place = self.free_place();
        let Ok(id) = u32::try_from(place) else {
            return Err(StartFault::Again);
        };
        let Ok(mut command) = self.command_of(role) else {
            return Err(StartFault::NoMemory);
        };
        command.stdin(Stdio::piped());
        command.stdout(Stdio::piped());
        let mut child = command
            .spawn(&self.watch.rt)
            .map_err(|error| fault_of(&error))?;
        let Some(stdout) = child.stdout.take() else {
            let _ = child.kill();
            let _ = child.wait();
            return Err(StartFault::Again);
        };
        let open = self.opened(child, stdout, role);
        if place < self.children.len() {
            self.children[place] = Some(open);
        } else if self.children.push(Some(open)).is_err() {
            return Err(StartFault::NoMemory);
        }
        Ok(id)
    }

    fn say(&mut self, id: u32, line: &[u8]) -> bool {
        if line == b"quit".as_slice() {
            self.mark_quitting(id);
        } else {
            self.reap_next();
        }
        match self.children.get_mut(id as usize) {
            Some(Some(open)) => self.watch.say(open, line),
            _ => false,
        }
    }

    fn hear(&mut self, id: u32, line: &mut Line) -> Heard {
        match self.children.get_mut(id as usize) {
            Some(Some(open)) => self.watch.hear(open, line),
            _ => Heard::Ended,
        }
    }

    fn stop(&mut self, id: u32) {
        if let Some(mut open) = self.take(id as usize) {
            let _ = open.child.kill();
            let _ = open.child.wait();
        }
    }

    fn gone(&mut self, id: u32) -> bool {
        match self.take(id as usize) {
            Some(mut open) => self.watch.gone(&mut open),
            None => false,
        }
    }

    fn write_file(&mut self, path: &FilePath, contents: &[u8]) -> bool {
        write_whole(&self.watch.rt, path, contents).is_ok()
    }

    fn rename_file(&mut self, from: &FilePath, to: &FilePath) -> bool {
        rename(&self.watch.rt, from, to).is_ok()
    }

    fn remove_file(&mut self, path: &FilePath) -> bool {
        remove(&self.watch.rt, path).is_ok()
    }
}
