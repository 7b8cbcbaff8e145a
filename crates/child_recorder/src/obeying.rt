//! Children in memory that obey as workers and masters do.
use child_family::{Heard, Role, StartFault};
use plain_text::Line;
use std::alloc::Global;

/// A child: what it was told last, and the number of its start as text.
#[derive(Drop)]
struct Child {
    id: u32,
    is_master: bool,
    start: Vec<u8>,
    last: Vec<u8>,
}

/// Children that obey. A worker gives its beat only where every other worker was told the same tick.
#[derive(Drop)]
pub(crate) struct Obeying {
    alloc: Global,
    children: Vec<Child>,
    next: u32,
    made: usize,
    fails: Option<usize>,
}

/// The last word of a line.
fn last_word(line: &[u8]) -> &[u8] {
    line.rsplit(|byte| *byte == b' ').next().unwrap_or(line)
}

/// What a worker answers.
fn obey(child: &Child, line: &mut Line) -> bool {
    match child.last.as_slice() {
        b"go" => line.put(b"ready"),
        b"ping" => line.put(b"pong"),
        b"quit" => line.put(b"gone"),
        last => match last.strip_prefix(b"tick ".as_slice()) {
            Some(now) => {
                line.put(b"beat ") && line.put(now) && line.put(b" ") && line.put(&child.start)
            }
            None => false,
        },
    }
}

/// The verb of a call line, `mI VERB ..`.
fn verb(line: &[u8]) -> &[u8] {
    line.split(|byte| *byte == b' ').nth(1).unwrap_or(line)
}

/// What a master answers: plainly, but for a call that asks for another master. Worker 1 beats at each tick.
fn pass(child: &Child, line: &mut Line) -> bool {
    if child.last.as_slice() == b"alive".as_slice() {
        return line.put(b"alive");
    }
    if child.last.starts_with(b"tick ") {
        return line.put(b"counted 1");
    }
    match verb(&child.last) {
        b"adopt" => line.put(b"adopted"),
        b"open" => line.put(b"opened 4"),
        b"fork" => line.put(b"forked"),
        b"await-ready" => line.put(b"ready"),
        b"census" => line.put(b"counted 0"),
        b"alive" => line.put(b"what"),
        _ => line.put(b"ok"),
    }
}

impl Obeying {
    pub(crate) fn new(alloc: Global, fails: Option<usize>) -> Obeying {
        Obeying {
            alloc,
            children: Vec::new(alloc),
            next: 10,
            made: 0,
            fails,
        }
    }

    /// Counts a call; false for the one that fails.
    pub(crate) fn does(&mut self) -> bool {
        let number = self.made;
        self.made = number.saturating_add(1);
        self.fails != Some(number)
    }

    pub(crate) fn start(&mut self, role: &Role) -> Result<u32, StartFault> {
        if !self.does() {
            return Err(StartFault::Again);
        }
        let id = self.next;
        self.next = id.saturating_add(1);
        let child = Child {
            id,
            is_master: matches!(role, Role::Master { .. }),
            start: Vec::new(self.alloc),
            last: Vec::new(self.alloc),
        };
        match self.children.push(child) {
            Ok(()) => Ok(id),
            Err(_) => Err(StartFault::NoMemory),
        }
    }

    fn place(&self, id: u32) -> Option<usize> {
        self.children.iter().position(|child| child.id == id)
    }

    pub(crate) fn say(&mut self, id: u32, line: &[u8]) -> bool {
        let Some(place) = self.place(id) else {
            return false;
        };
        if !self.does() {
            return false;
        }
        let Ok(last) = line.to_vec(self.alloc) else {
            return false;
        };
        let Some(child) = self.children.get_mut(place) else {
            return false;
        };
        if line.starts_with(b"worker ") {
            if let Ok(start) = last_word(line).to_vec(self.alloc) {
                child.start = start;
            }
        }
        child.last = last;
        true
    }

    /// Whether a line is no tick, or every worker was told it last.
    fn may_answer(&self, line: &[u8]) -> bool {
        !line.starts_with(b"tick ")
            || self
                .children
                .iter()
                .all(|child| child.is_master || child.last.as_slice() == line)
    }

    pub(crate) fn hear(&mut self, id: u32, line: &mut Line) -> Heard {
        line.clear();
        if !self.does() {
            return Heard::Ended;
        }
        let Some(place) = self.place(id) else {
            return Heard::Ended;
        };
        let Some(child) = self.children.get(place) else {
            return Heard::Ended;
        };
        let answers = if child.is_master {
            pass(child, line)
        } else {
            self.may_answer(&child.last) && obey(child, line)
        };
        if answers { Heard::Line } else { Heard::Ended }
    }

    pub(crate) fn forget(&mut self, id: u32) {
        if let Some(place) = self.place(id) {
            if place < self.children.len() {
                self.children.remove(place);
            }
        }
    }
}
