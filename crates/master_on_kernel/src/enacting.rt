//! `enact`: words carried out, as a text of their blocks.
ghost use Rattle.std.specs.Prelude.{◌≡◌, ◌++◌, ℕ, List, length, IfOk, OnOk};
ghost use Rattle.word_runner.specs.declared.block.Block.{Block as Done};
ghost use Rattle.word_runner.specs.Status.{gravest};
ghost use Rattle.master_on_kernel.specs.Output.{blocks_text, IsState};
ghost use Rattle.master_on_kernel.specs.Rehearsals.{IsRehearsed};

use crate::rehearsal::Rehearsal;
use control_words::Word;
use kernel_model::Section;
use std::alloc::{AllocError, Global};
use word_runner::{Block, gravest};

/// Carries the words out one after another, and appends the block of each to the text. A word
/// beyond the sections runs in a quiet one. Gives the exit status.
pub fn rehearse(
    alloc: Global,
    rehearsal: &mut Rehearsal,
    words: &[Word],
    sections: &[Section],
    text: &mut Vec<u8>,
) -> Result<u8, AllocError>
    ensures { (blocks : List Done)
        × IsRehearsed sections.now words.now rehearsal.old blocks rehearsal.new
        × IfOk result (λ status. (length blocks ≡ length words.now)
        × (text.new.items ≡ text.old.items ++ blocks_text blocks)
        × (status ≡ gravest blocks)) }
{
    let mut blocks = Vec::new(alloc);
    let done = rehearsal.act(alloc, words, sections, &mut blocks);
    write_blocks(alloc, &blocks, text)?;
    done?;
    Ok(gravest(&blocks))
}

/// Appends the table of processes, files and the service where it is asked for.
pub fn show_state(
    rehearsal: &Rehearsal,
    is_wanted: bool,
    text: &mut Vec<u8>,
) -> Result<(), AllocError>
    ensures { IfOk result (λ _. (state : List ℕ)
        × (text.new.items ≡ text.old.items ++ state)
        × IsState is_wanted rehearsal.now.standing.world.table state) }
{
    if is_wanted {
        let state = rehearsal.state()?;
        text.extend_from_slice(state.as_slice())?;
    }
    Ok(())
}

/// Appends the blocks; those before one that memory was refused for are there then.
fn write_blocks(alloc: Global, blocks: &[Block], text: &mut Vec<u8>) -> Result<(), AllocError>
    ensures { OnOk result (text.new.items ≡ text.old.items ++ blocks_text blocks.now) }
{
    for block in blocks {
        append(text, transcript::write_transcript(alloc, block)?)?;
    }
    Ok(())
}

/// Appends a text. The first is taken over as it is: a long one does not stand in memory twice.
fn append(text: &mut Vec<u8>, more: Vec<u8>) -> Result<(), AllocError>
    ensures { OnOk result (text.new.items ≡ text.old.items ++ more.items) }
{
    if text.is_empty() {
        *text = more;
        return Ok(());
    }
    Ok(text.extend_from_slice(more.as_slice())?)
}
