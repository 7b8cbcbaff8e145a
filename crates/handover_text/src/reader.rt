//! Reading a handover line by line.
ghost use Rattle.std.specs.Prelude.{◌≡◌, ◌≤◌, ℕ, codes};
ghost use Rattle.plain_text.specs.NumberText.{number_within};
ghost use Rattle.handover_text.specs.Reading.{AtVersion, AtOldPid, AtGeneration, AtFirstListener, AtListeners, AtWants, AtGroup, AtPidFile, AtEnd, Over, nothing_read, read_version, with_old_pid, with_generation, with_listener, with_want, with_workers, with_group, with_pid_file, one_more, extended, read_end, read_line, read_wanted, read_behind, read_pid_file, listener_read, read_rest};
ghost use Rattle.handover_text.specs.Ranges.{IsReadTo};
ghost use Rattle.handover_text.specs.Reader.{read_to, place_of};

use crate::Handover;
use crate::fields::{read_listener, read_workers};
use crate::groups::{can_begin, extended};
use listener_set::{Address, FilePath, Generation, ListenerSet, MOST_LISTENERS};
use master_listeners::Listeners;
use plain_text::{after_prefix, around, read_count, read_number};
use std::marker::Model;
use vocabulary::{HandoverRefusal, HandoverVersion};
use worker_groups::{Group, Groups};

/// Which lines can come next.
#[derive(Clone, Copy, Debug)]
enum NextLine {
    Version,
    OldPid(HandoverVersion),
    Generation(HandoverVersion),
    /// A listener.
    FirstListener(HandoverVersion),
    /// A listener, or the first of what is wanted.
    Listeners(HandoverVersion),
    /// An address that is wanted, or the workers.
    Wants,
    /// An address of a group, of which so many were read, or what stands behind a group.
    Group(Group),
    /// The pid file, or the end.
    PidFile,
    End(HandoverVersion),
    Nothing(HandoverVersion),
}

/// What was read so far.
#[derive(Drop)]
pub(crate) struct HandoverReader {
    next: NextLine,
    old_pid: u32,
    generation: Generation,
    listeners: Listeners,
    want: ListenerSet,
    groups: Option<Groups>,
    pid_file: Option<FilePath>,
}

impl Model for HandoverReader {
    ghost use Rattle.definitions.specs.Calls.{Handover as Told};
    ghost use Rattle.handover_text.specs.Reading.{Reached};
    ghost use Rattle.handover_text.specs.Reader.{place_of, groups_in};

    ghost Value = { Reached × Told };

    ghost view = { λ r. (place_of r.next, record { old_pid = r.old_pid; generation = r.generation; listeners = r.listeners; want = r.want; groups = groups_in r.groups; pid_file = r.pid_file }) };
}

impl HandoverReader {
    /// Nothing is read yet.
    pub(crate) fn new() -> Self
        ensures { result ≡ (AtVersion, nothing_read) }
    {
        HandoverReader {
            next: NextLine::Version,
            old_pid: 0,
            generation: Generation {
                image: 0,
                config: 0,
            },
            listeners: Listeners::new(),
            want: ListenerSet::new(),
            groups: None,
            pid_file: None,
        }
    }

    fn read_version(&mut self, line: &[u8]) -> Result<(), HandoverRefusal>
        ensures { read_to result self.new ≡ read_version self.old.1 line.now }
    {
        let version = if line == b"handover 1".as_slice() {
            HandoverVersion::One
        } else if line == b"handover 2".as_slice() {
            HandoverVersion::Two
        } else {
            return Err(HandoverRefusal::Version);
        };
        self.next = NextLine::OldPid(version);
        Ok(())
    }

    fn read_old_pid(
        &mut self,
        number: u32,
        version: HandoverVersion,
        line: &[u8],
    ) -> Result<(), HandoverRefusal>
        ensures { read_to result self.new ≡ read_line number (AtOldPid version) self.old.1 line.now }
    {
        let Some(rest) = after_prefix(line, b"old-pid ") else {
            return Err(HandoverRefusal::Line(number));
        };
        let Some(old_pid) = read_count(rest) else {
            return Err(HandoverRefusal::Line(number));
        };
        self.old_pid = old_pid;
        self.next = NextLine::Generation(version);
        Ok(())
    }

    fn read_generation(
        &mut self,
        number: u32,
        version: HandoverVersion,
        line: &[u8],
    ) -> Result<(), HandoverRefusal>
        ensures { read_to result self.new ≡ read_line number (AtGeneration version) self.old.1 line.now }
    {
        let Some(rest) = after_prefix(line, b"generation ") else {
            return Err(HandoverRefusal::Line(number));
        };
        let (image, config) = around(rest, b' ');
        let (Some(image), Some(config)) = (read_number(image), read_number(config)) else {
            return Err(HandoverRefusal::Line(number));
        };
        self.generation = Generation { image, config };
        self.next = NextLine::FirstListener(version);
        Ok(())
    }

    fn take_listener(
        &mut self,
        number: u32,
        version: HandoverVersion,
        rest: &[u8],
    ) -> Result<(), HandoverRefusal>
        ensures { read_to result self.new ≡ with_listener number version self.old.1 (listener_read rest.now) }
    {
        let Some(listener) = read_listener(rest) else {
            return Err(HandoverRefusal::Line(number));
        };
        if !self.listeners.are_below(listener.descriptor) {
            return Err(HandoverRefusal::OutOfOrder(number));
        }
        if self.listeners.holds(&listener.address) {
            return Err(HandoverRefusal::Line(number));
        }
        self.listeners.push(&listener);
        self.next = NextLine::Listeners(version);
        Ok(())
    }

    /// Takes up an address that is wanted, behind which such lines can come.
    fn take_want(&mut self, number: u32, next: NextLine, rest: &[u8]) -> Result<(), HandoverRefusal>
        ensures { read_to result self.new ≡ with_want number (place_of next) self.old.1 rest.now }
    {
        let Ok(address) = Address::read(rest) else {
            return Err(HandoverRefusal::Line(number));
        };
        if self.want.len() == MOST_LISTENERS || self.want.holds(&address) {
            return Err(HandoverRefusal::Line(number));
        }
        let _ = self.want.add(&address);
        self.next = next;
        Ok(())
    }

    fn take_workers(&mut self, number: u32, rest: &[u8]) -> Result<(), HandoverRefusal>
        ensures { read_to result self.new ≡ with_workers number self.old.1 (number_within 0 1024 rest.now) }
    {
        let Some(workers) = read_workers(rest) else {
            return Err(HandoverRefusal::Line(number));
        };
        let addresses = self.want.len() as u32;
        let Some(groups) = extended(None, Group { addresses, workers }) else {
            return Err(HandoverRefusal::Line(number));
        };
        self.groups = Some(groups);
        self.next = NextLine::PidFile;
        Ok(())
    }

    /// Begins a group, unless there are too many groups or workers then.
    fn take_group(&mut self, number: u32, rest: &[u8]) -> Result<(), HandoverRefusal>
        ensures { read_to result self.new ≡ with_group number self.old.1 (number_within 0 1024 rest.now) }
    {
        let Some(workers) = read_workers(rest) else {
            return Err(HandoverRefusal::Line(number));
        };
        if !can_begin(self.groups, workers) {
            return Err(HandoverRefusal::Line(number));
        }
        self.next = NextLine::Group(Group {
            addresses: 0,
            workers,
        });
        Ok(())
    }

    fn take_pid_file(
        &mut self,
        number: u32,
        version: HandoverVersion,
        rest: &[u8],
    ) -> Result<(), HandoverRefusal>
        ensures { read_to result self.new ≡ with_pid_file number version self.old.1 rest.now }
    {
        let Ok(path) = FilePath::read(rest) else {
            return Err(HandoverRefusal::Line(number));
        };
        self.pid_file = Some(path);
        self.next = NextLine::End(version);
        Ok(())
    }

    fn read_end(
        &mut self,
        number: u32,
        version: HandoverVersion,
        line: &[u8],
    ) -> Result<(), HandoverRefusal>
        ensures { read_to result self.new ≡ read_end number version self.old.1 line.now }
    {
        if line != b"end".as_slice() {
            return Err(HandoverRefusal::Line(number));
        }
        self.next = NextLine::Nothing(version);
        Ok(())
    }

    fn read_first_listener(
        &mut self,
        number: u32,
        version: HandoverVersion,
        line: &[u8],
    ) -> Result<(), HandoverRefusal>
        ensures { read_to result self.new ≡ read_line number (AtFirstListener version) self.old.1 line.now }
    {
        match after_prefix(line, b"listener ") {
            Some(rest) => self.take_listener(number, version, rest),
            None => Err(HandoverRefusal::Line(number)),
        }
    }

    /// The first line of what is wanted.
    fn read_wanted(
        &mut self,
        number: u32,
        version: HandoverVersion,
        line: &[u8],
    ) -> Result<(), HandoverRefusal>
        ensures { read_to result self.new ≡ read_wanted number version self.old.1 line.now }
    {
        match version {
            HandoverVersion::One => match after_prefix(line, b"want ") {
                Some(rest) => self.take_want(number, NextLine::Wants, rest),
                None => Err(HandoverRefusal::Line(number)),
            },
            HandoverVersion::Two => match after_prefix(line, b"group ") {
                Some(rest) => self.take_group(number, rest),
                None => Err(HandoverRefusal::Line(number)),
            },
        }
    }

    fn read_listeners(
        &mut self,
        number: u32,
        version: HandoverVersion,
        line: &[u8],
    ) -> Result<(), HandoverRefusal>
        ensures { read_to result self.new ≡ read_line number (AtListeners version) self.old.1 line.now }
    {
        match after_prefix(line, b"listener ") {
            Some(rest) => self.take_listener(number, version, rest),
            None => self.read_wanted(number, version, line),
        }
    }

    fn read_wants(&mut self, number: u32, line: &[u8]) -> Result<(), HandoverRefusal>
        ensures { read_to result self.new ≡ read_line number AtWants self.old.1 line.now }
    {
        if let Some(rest) = after_prefix(line, b"want ") {
            return self.take_want(number, NextLine::Wants, rest);
        }
        match after_prefix(line, b"workers ") {
            Some(rest) => self.take_workers(number, rest),
            None => Err(HandoverRefusal::Line(number)),
        }
    }

    fn read_pid_file(
        &mut self,
        number: u32,
        version: HandoverVersion,
        line: &[u8],
    ) -> Result<(), HandoverRefusal>
        ensures { read_to result self.new ≡ read_pid_file number version self.old.1 line.now }
    {
        match after_prefix(line, b"pid-file ") {
            Some(rest) => self.take_pid_file(number, version, rest),
            None => self.read_end(number, version, line),
        }
    }

    /// A line behind the last address of a group.
    fn read_behind(&mut self, number: u32, group: Group, line: &[u8]) -> Result<(), HandoverRefusal>
        ensures { read_to result self.new ≡ read_behind number self.old.1 (extended self.old.1.groups group) line.now }
    {
        let Some(groups) = extended(self.groups, group) else {
            return Err(HandoverRefusal::Line(number));
        };
        self.groups = Some(groups);
        match after_prefix(line, b"group ") {
            Some(rest) => self.take_group(number, rest),
            None => self.read_pid_file(number, HandoverVersion::Two, line),
        }
    }

    fn read_group(&mut self, number: u32, group: Group, line: &[u8]) -> Result<(), HandoverRefusal>
        requires { group.addresses ≤ MOST_LISTENERS }
        ensures { read_to result self.new ≡ read_line number (AtGroup group) self.old.1 line.now }
    {
        let Some(rest) = after_prefix(line, b"want ") else {
            return self.read_behind(number, group, line);
        };
        let with_it = Group {
            addresses: group.addresses + 1,
            workers: group.workers,
        };
        self.take_want(number, NextLine::Group(with_it), rest)
    }

    /// Reads the line of a number, counted from 1, without its newline.
    pub(crate) fn read_line(&mut self, number: u32, line: &[u8]) -> Result<(), HandoverRefusal>
        requires { IsReadTo number self.old.0 self.old.1 }
        ensures { read_to result self.new ≡ read_line number self.old.0 self.old.1 line.now }
    {
        match self.next {
            NextLine::Version => self.read_version(line),
            NextLine::OldPid(version) => self.read_old_pid(number, version, line),
            NextLine::Generation(version) => self.read_generation(number, version, line),
            NextLine::FirstListener(version) => self.read_first_listener(number, version, line),
            NextLine::Listeners(version) => self.read_listeners(number, version, line),
            NextLine::Wants => self.read_wants(number, line),
            NextLine::Group(group) => self.read_group(number, group, line),
            NextLine::PidFile => self.read_pid_file(number, HandoverVersion::One, line),
            NextLine::End(version) => self.read_end(number, version, line),
            NextLine::Nothing(_) => Err(HandoverRefusal::Trailing),
        }
    }

    /// The handover, where nothing is left behind its last line.
    pub(crate) fn finish(self, rest: &[u8]) -> Result<Handover, HandoverRefusal>
        requires { (number : ℕ) × IsReadTo number self.0 self.1 }
        ensures { result ≡ read_rest self.0 self.1 rest.now }
    {
        let NextLine::Nothing(_) = self.next else {
            return Err(HandoverRefusal::Cut);
        };
        if !rest.is_empty() {
            return Err(HandoverRefusal::Trailing);
        }
        let Some(groups) = self.groups else {
            unreachable!();
        };
        Ok(Handover {
            old_pid: self.old_pid,
            generation: self.generation,
            listeners: self.listeners,
            want: self.want,
            groups,
            pid_file: self.pid_file,
        })
    }
}
