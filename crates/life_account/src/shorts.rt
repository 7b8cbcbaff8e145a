//! The words that ended with missing workers, and the words that healed them.
ghost use Rattle.std.specs.Prelude.{◌≡◌, ◌≤◌, map, OnOk};
ghost use Rattle.lives.specs.Lives.{missing_workers};
ghost use Rattle.life_account.specs.Shorts.{healed_by, shorts_after};

use listener_set::Numbers;
use service_state::Record;
use std::alloc::AllocError;

/// A word that ended with missing workers; the start is word 0.
#[derive(Clone, Copy, Debug)]
pub struct ShortWord {
    pub word: usize,
    /// How many of the wanted workers were not ready.
    pub missing: u32,
    /// The first later word that ended with none missing, if one did yet.
    pub healed: Option<usize>,
}

/// How many of the wanted workers are not ready.
pub(crate) fn missing_workers(state: &Record) -> u32
    ensures { result ≡ missing_workers state.now }
{
    let lacking = Numbers::below(state.wanted).minus(&state.ready);
    lacking.len() as u32
}

fn healed_by(word: usize, one: ShortWord) -> ShortWord
    ensures { result ≡ healed_by word one }
{
    ShortWord {
        word: one.word,
        missing: one.missing,
        healed: match one.healed {
            Some(first) => Some(first),
            None => Some(word),
        },
    }
}

/// A word ended with no missing worker: it healed each that no word has healed yet.
fn heal_all(shorts: &mut Vec<ShortWord>, word: usize)
    ensures { shorts.new.items ≡ map (healed_by word) shorts.old.items }
{
    for at in 0..shorts.len() {
        let healed = healed_by(word, shorts[at]);
        shorts[at] = healed;
    }
}

/// Notes how many workers a word left missing.
pub(crate) fn note_missing(
    shorts: &mut Vec<ShortWord>,
    word: usize,
    missing: u32,
) -> Result<(), AllocError>
    ensures { OnOk result (shorts.new.items ≡ shorts_after word missing shorts.old.items) }
{
    if missing == 0 {
        heal_all(shorts, word);
        return Ok(());
    }
    shorts.push(ShortWord {
        word,
        missing,
        healed: None,
    })?;
    Ok(())
}
