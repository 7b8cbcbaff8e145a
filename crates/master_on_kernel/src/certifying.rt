//! `certify`: blocks, compared with plans and kernel.
ghost use Rattle.std.specs.Prelude.{IfOk, IfErr};
ghost use Rattle.master_on_kernel.specs.Certificates.{AreExplained, IsOfBlock};

use crate::rehearsal::Rehearsal;
use faults::Fault;
use pattern_text::write_patterns;
use std::alloc::Global;
use vocabulary::Settings;
use word_runner::Block;

/// Compares blocks one after another, each from where the ones before it left things, and gives the text of the
/// sections that explain them, one for each. The first that is none of the master's is the fault, by its number from 1.
/// The goals are the settings that words go over to, one after another.
pub fn certify_all(
    alloc: Global,
    rehearsal: &mut Rehearsal,
    goals: &[Settings],
    blocks: &[Block],
) -> Result<Vec<u8>, Fault>
    ensures ok { IfOk result (λ text. AreExplained goals.now blocks.now rehearsal.old text.items rehearsal.new) }
    ensures err { IfErr result (IsOfBlock goals.now blocks.now rehearsal.old) }
{
    let sections = match rehearsal.certify(alloc, goals, blocks) {
        Ok(sections) => sections,
        Err(mismatch) => return Err(Fault::of_block(mismatch.number, mismatch.why)),
    };
    let text = write_patterns(alloc, sections.as_slice())?;
    Ok(text)
}
