//! Children in memory of which a new master can start the next one.
use child_family::{Family, Heard, Role, StartFault};
use child_recorder::Recorded;
use listener_set::FilePath;
use plain_text::Line;
use std::alloc::Global;

/// Children that obey. A master also answers the calls of an upgrade that it carries out itself.
#[derive(Drop)]
pub(crate) struct Generations {
    children: Recorded,
    answer: Option<&'static [u8]>,
}

/// What a master answers to a call about the next one.
fn answer_to(line: &[u8]) -> Option<&'static [u8]> {
    let rows: [(&[u8], &'static [u8]); 3] = [
        (b" spawn-master ", b"spawned"),
        (b" alive ", b"alive"),
        (b" await-gone ", b"gone"),
    ];
    for (call, answer) in rows {
        if line.windows(call.len()).any(|part| part == call) {
            return Some(answer);
        }
    }
    None
}

impl Generations {
    pub(crate) fn new(alloc: Global) -> Generations {
        Generations {
            children: Recorded::new(alloc, None),
            answer: None,
        }
    }
}

impl Family for Generations {
    fn start(&mut self, role: &Role) -> Result<u32, StartFault> {
        self.children.start(role)
    }

    fn say(&mut self, id: u32, line: &[u8]) -> bool {
        if self.answer.is_none() {
            self.answer = answer_to(line);
        }
        self.children.say(id, line)
    }

    fn hear(&mut self, id: u32, line: &mut Line) -> Heard {
        let heard = self.children.hear(id, line);
        if let Some(answer) = self.answer {
            line.clear();
            line.put(answer);
            self.answer = None;
        }
        heard
    }

    fn stop(&mut self, id: u32) {
        self.children.stop(id);
    }

    fn gone(&mut self, id: u32) -> bool {
        self.children.gone(id)
    }

    fn write_file(&mut self, path: &FilePath, contents: &[u8]) -> bool {
        self.children.write_file(path, contents)
    }

    fn rename_file(&mut self, from: &FilePath, to: &FilePath) -> bool {
        self.children.rename_file(from, to)
    }

    fn remove_file(&mut self, path: &FilePath) -> bool {
        self.children.remove_file(path)
    }
}
