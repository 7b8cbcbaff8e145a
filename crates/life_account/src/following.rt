//! The tables that a run passes, one after another.
ghost use Rattle.std.specs.Prelude.{◌≡◌, ◌+◌, ◌≤◌, length, OnOk, IfOk};
ghost use Rattle.handover_text.specs.Reading.{handed_by};
ghost use Rattle.definitions.specs.Calls.{after_exits};
ghost use Rattle.kernel_model.specs.Pattern.{moment_at};
ghost use Rattle.life_account.specs.Tables.{after_tables};
ghost use Rattle.life_account.specs.Account.{stepped};

use crate::opened::{OpenAddress, TablePlace, pass};
use kernel_model::{Kernel, Moment, Pattern};
use plan_walk::Transcript;
use std::alloc::AllocError;
use vocabulary::{Actor, Call, Name};

/// The run of a word: its calls, the text that they are handed, and the pattern under which they are made; the number of
/// the word, and whether workers are counted in its tables.
#[derive(Clone, Copy)]
pub(crate) struct WordRun<'a> {
    pub(crate) word: usize,
    pub(crate) counts: bool,
    pub(crate) text: &'a [u8],
    pub(crate) log: &'a Transcript,
    pub(crate) pattern: &'a Pattern,
}

/// The same kernel in memory of its own, with room for twice as many calls as there are entries: the exits of each moment
/// come with a call of their own.
pub(crate) fn copy_for(kernel: &Kernel, log: &Transcript) -> Result<Kernel, AllocError>
    ensures table { IfOk result (λ k. k.table ≡ kernel.now.table) }
    ensures room { IfOk result (λ k. length log.now.entries + length log.now.entries ≤ k.room) }
{
    let Some(calls) = (log.len() as u32).checked_mul(2) else {
        return Err(AllocError);
    };
    match kernel.copy(calls) {
        Ok(copy) => Ok(copy),
        Err(_) => Err(AllocError),
    }
}

/// Lets processes exit. Exits come with a call: the kernel makes one that changes nothing.
fn let_exit(kernel: &mut Kernel, by: Actor, exits: &[Name])
    requires { 1 ≤ kernel.old.room }
    ensures table { kernel.new.table ≡ after_exits exits.now kernel.old.table }
    ensures room { kernel.new.room + 1 ≡ kernel.old.room }
{
    let moment = Moment { exits, fate: None };
    kernel.call(by, &Call::Alive(by.0), &[], &moment);
}

/// Makes the calls of a run on a kernel, and passes each table: the one before a call, the one after the exits of its
/// moment, and the last one.
pub(crate) fn follow_run(run: &WordRun<'_>, kernel: &mut Kernel, kept: &mut Vec<OpenAddress>)
    requires { length run.now.log.now.entries + length run.now.log.now.entries ≤ kernel.old.room }
    ensures { kept.new.items ≡ after_tables run.now.counts run.now.word (stepped (handed_by run.now.text.now) (moment_at run.now.pattern.now) 0 kernel.old.table run.now.log.now.entries) kept.old.items }
{
    let word = run.word;
    for number in 0..run.log.len() {
        let call = number as u32;
        pass(kept, kernel, run.counts, TablePlace { word, call });
        let entry = run.log.get(number);
        let moment = run.pattern.moment(call + 1);
        let_exit(kernel, entry.by, moment.exits);
        pass(kept, kernel, run.counts, TablePlace { word, call });
        let called = Moment {
            exits: &[],
            fate: moment.fate,
        };
        kernel.call(entry.by, &entry.call, run.text, &called);
    }
    let last = run.log.len() as u32;
    pass(kept, kernel, run.counts, TablePlace { word, call: last });
}
