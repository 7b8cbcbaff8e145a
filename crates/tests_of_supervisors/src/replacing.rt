//! Upgrades that lose an old worker while the new master starts, carried out on children in memory.
use crate::setup::{Always, could_be_up_to_a_loss, ticked};
use child_family::{Family, Heard, Role, StartFault};
use child_recorder::Recorded;
use listener_set::FilePath;
use log::sink::Discard;
use master_on_children::{Operator, SupervisorFault, SupervisorStart, supervise_on};
use plain_text::Line;
use std::alloc::Global;
use std::test::Fail;
use vocabulary::Settings;

/// Children that obey, but for the first worker that is asked whether it lives once a master was started: it is gone.
#[derive(Drop)]
struct LosesAWorker {
    children: Recorded,
    loses_next: bool,
}

impl Family for LosesAWorker {
    fn start(&mut self, role: &Role) -> Result<u32, StartFault> {
        self.loses_next = self.loses_next || matches!(role, Role::Master { .. });
        self.children.start(role)
    }

    fn say(&mut self, id: u32, line: &[u8]) -> bool {
        if self.loses_next && line == b"ping".as_slice() {
            self.loses_next = false;
            self.children.stop(id);
            return false;
        }
        self.children.say(id, line)
    }

    fn hear(&mut self, id: u32, line: &mut Line) -> Heard {
        self.children.hear(id, line)
    }

    fn stop(&mut self, id: u32) {
        self.children.stop(id);
    }

    fn gone(&mut self, id: u32) -> bool {
        self.children.gone(id)
    }

    fn write_file(&mut self, path: &FilePath, contents: &[u8]) -> bool {
        self.children.write_file(path, contents)
    }

    fn rename_file(&mut self, from: &FilePath, to: &FilePath) -> bool {
        self.children.rename_file(from, to)
    }

    fn remove_file(&mut self, path: &FilePath) -> bool {
        self.children.remove_file(path)
    }
}

/// The masters take turns, call by call: the old one starts its worker again while the new one starts its first.
const REPLACES_MEANWHILE: &[u8] = b"word USR2\n\
    1 m1 spawn-master 2 : spawned\n\
    2 m2 adopt : adopted\n\
    3 m1 census 1.1 : counted none\n\
    4 m2 fork 2.2 0 : forked\n\
    5 m1 fork 1.1 0 : forked\n\
    6 m2 await-ready 2.2 0 : ready\n\
    7 m1 await-ready 1.1 0 : ready\n\
    8 m1 census 1.1 : counted 0\n\
    9 m2 census 2.2 : counted 0\n\
    10 m1 quit 1.1 0 : ok\n\
    11 m1 await-gone 1.1 0 : gone\n\
    12 m1 alive 2 : alive\n\
    13 m1 leave : ok\n\
    14 m2 census 2.2 : counted 0\n\
    done cause 3 pid no-file\n";

/// What a supervisor of such children writes where it upgrades itself, and what comes of it.
fn upgraded(alloc: Global) -> (Vec<u8>, Result<u8, SupervisorFault>) {
    let settings = Settings::plain();
    let start = SupervisorStart { settings, pid: 7 };
    let family = LosesAWorker {
        children: Recorded::new(alloc, None),
        loses_next: false,
    };
    let input = b"USR2\n".as_slice();
    let log = Discard;
    let operator = Operator { input, log };
    let mut next = Always { settings };
    let mut output = Vec::new(alloc);
    let ended = supervise_on(alloc, family, &start, &mut next, operator, &mut output);
    (output, ended.status)
}

#[test]
fn an_old_worker_is_replaced_while_the_new_master_starts(rt: HostRuntime) -> Result<(), Fail> {
    let (output, status) = upgraded(rt.alloc());
    assert!(rt; status.is_ok());
    let text = ticked(rt.alloc(), &[REPLACES_MEANWHILE])?;
    assert!(rt; output.starts_with(text.as_slice()));
    // (the new master of this family answers no wait for the end of a worker, so its stop is lost)
    assert!(rt; could_be_up_to_a_loss(rt.alloc(), output.as_slice())?);
    Ok(())
}
