//! The account of a life, word by word.
ghost use Rattle.std.specs.Prelude.{◌≡◌, IfOk, OnOk};
ghost use Rattle.std.specs.Option.{option_copied};
ghost use Rattle.lives.specs.Lives.{missing_workers};
ghost use Rattle.life_account.specs.Account.{seen_life, ended, first_account};

use crate::opened::{OpenAddress, TablePlace, first_open, look};
use crate::shorts::{ShortWord, missing_workers, note_missing};
use kernel_model::Kernel;
use service_state::Record;
use std::alloc::{AllocError, Global};
use word_runner::Standing;

/// What holds of the blocks of a life so far.
#[derive(Drop)]
pub struct Life {
    /// Whether the service was in full at the start or after a word. From then on workers are counted.
    pub was_full: bool,
    /// The addresses that were open in each table, each on one socket.
    pub addresses: Vec<OpenAddress>,
    /// The words that ended with missing workers.
    pub shorts: Vec<ShortWord>,
}

impl Life {
    /// The account at the start.
    pub(crate) fn begin(alloc: Global, standing: &Standing<Kernel>) -> Result<Life, AllocError>
        ensures { IfOk result (λ life. seen_life life ≡ first_account standing.now.record standing.now.world.table) }
    {
        let mut life = Life {
            was_full: false,
            addresses: Vec::new(alloc),
            shorts: Vec::new(alloc),
        };
        let Some(state) = standing.record else {
            return Ok(life);
        };
        life.addresses = first_open(alloc, &standing.world, state.pid)?;
        let place = TablePlace { word: 0, call: 0 };
        life.end_word(&state, &standing.world, place)?;
        Ok(life)
    }

    /// A word ended at this place, with this record and this table.
    pub(crate) fn end_word(
        &mut self,
        state: &Record,
        kernel: &Kernel,
        place: TablePlace,
    ) -> Result<(), AllocError>
        ensures { OnOk result (seen_life self.new ≡ ended place (missing_workers state.now) kernel.now.table (seen_life self.old)) }
    {
        let missing = missing_workers(state);
        note_missing(&mut self.shorts, place.word, missing)?;
        if missing == 0 {
            look(&mut self.addresses, kernel, place);
            self.was_full = true;
        }
        Ok(())
    }
}
