//! A family in memory that tells its calls.
use crate::obeying::Obeying;
use child_family::{Family, Heard, Role, StartFault};
use listener_set::FilePath;
use plain_text::Line;
use std::alloc::Global;

/// A call that was made, with its answer.
#[derive(Drop)]
pub enum FamilyCall {
    Started(Role, Result<u32, StartFault>),
    Said(u32, Vec<u8>, bool),
    HeardLine(u32, Heard, Vec<u8>),
    Stopped(u32),
    Awaited(u32, bool),
    Wrote(FilePath, Vec<u8>, bool),
    Renamed(FilePath, FilePath, bool),
    Removed(FilePath, bool),
}

/// Children that obey, in memory, and the calls that were made on them.
#[derive(Drop)]
pub struct Recorded {
    alloc: Global,
    calls: Vec<FamilyCall>,
    /// Whether no call is missing.
    is_whole: bool,
    obeying: Obeying,
}

impl Recorded {
    ghost use Rattle.std.specs.Prelude.{◌≡◌, []};
    ghost use Rattle.child_family.specs.Told.{Tells};
    ghost use Rattle.child_recorder.specs.Recorded.{told_of, calls_of};

    /// No children, and no calls yet. The call of that number, counted from 0, fails.
    pub fn new(alloc: Global, fails: Option<usize>) -> Recorded
        ensures { calls_of result ≡ Some [] }
    {
        Recorded {
            alloc,
            calls: Vec::new(alloc),
            is_whole: true,
            obeying: Obeying::new(alloc, fails),
        }
    }

    /// The calls that were made.
    pub fn calls(&self) -> &[FamilyCall] {
        self.calls.as_slice()
    }

    fn keep(&mut self, call: FamilyCall)
        ensures { Tells (calls_of self.old) (calls_of self.new) (told_of call) }
    {
        if self.calls.push(call).is_err() {
            self.is_whole = false;
        }
    }

    fn lose(&mut self)
        ensures { calls_of self.new ≡ None }
    {
        self.is_whole = false;
    }
}

impl Family for Recorded {
    ghost use Rattle.child_recorder.specs.Recorded.{calls_of};

    ghost told = { calls_of };

    fn start(&mut self, role: &Role) -> Result<u32, StartFault> {
        let result = self.obeying.start(role);
        self.keep(FamilyCall::Started(*role, result));
        result
    }

    fn say(&mut self, id: u32, line: &[u8]) -> bool {
        let is_said = self.obeying.say(id, line);
        match line.to_vec(self.alloc) {
            Ok(text) => self.keep(FamilyCall::Said(id, text, is_said)),
            Err(_) => self.lose(),
        }
        is_said
    }

    fn hear(&mut self, id: u32, line: &mut Line) -> Heard {
        let heard = self.obeying.hear(id, line);
        match line.bytes().to_vec(self.alloc) {
            Ok(text) => self.keep(FamilyCall::HeardLine(id, heard, text)),
            Err(_) => self.lose(),
        }
        heard
    }

    fn stop(&mut self, id: u32) {
        self.obeying.forget(id);
        self.keep(FamilyCall::Stopped(id));
    }

    fn gone(&mut self, id: u32) -> bool {
        self.obeying.forget(id);
        self.keep(FamilyCall::Awaited(id, true));
        true
    }

    fn write_file(&mut self, path: &FilePath, contents: &[u8]) -> bool {
        let is_fine = self.obeying.does();
        match contents.to_vec(self.alloc) {
            Ok(text) => self.keep(FamilyCall::Wrote(*path, text, is_fine)),
            Err(_) => self.lose(),
        }
        is_fine
    }

    fn rename_file(&mut self, from: &FilePath, to: &FilePath) -> bool {
        let is_fine = self.obeying.does();
        self.keep(FamilyCall::Renamed(*from, *to, is_fine));
        is_fine
    }

    fn remove_file(&mut self, path: &FilePath) -> bool {
        let is_fine = self.obeying.does();
        self.keep(FamilyCall::Removed(*path, is_fine));
        is_fine
    }
}
