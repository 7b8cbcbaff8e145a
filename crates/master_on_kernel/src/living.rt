//! `certify --life`: blocks, compared with plans and kernel, and what holds of their life.
ghost use Rattle.std.specs.Prelude.{IfOk, IfErr};
ghost use Rattle.master_on_kernel.specs.Certificates.{IsOfBlock};
ghost use Rattle.master_on_kernel.specs.Living.{AreAccounted};

use crate::rehearsal::Rehearsal;
use faults::Fault;
use life_account::certify_life;
use life_text::write_life;
use pattern_text::write_patterns;
use std::alloc::Global;
use vocabulary::Settings;
use word_runner::Block;

/// Compares blocks as `certify_all` does, and gives behind the text of their sections that of the account of their life.
pub fn certify_with_life(
    alloc: Global,
    rehearsal: &mut Rehearsal,
    goals: &[Settings],
    blocks: &[Block],
) -> Result<Vec<u8>, Fault>
    ensures ok { IfOk result (λ text. AreAccounted goals.now blocks.now rehearsal.old text.items rehearsal.new) }
    ensures err { IfErr result (IsOfBlock goals.now blocks.now rehearsal.old) }
{
    let certified = match certify_life(alloc, &mut rehearsal.standing, goals, blocks) {
        Ok(certified) => certified,
        Err(mismatch) => return Err(Fault::of_block(mismatch.number, mismatch.why)),
    };
    let mut text = write_patterns(alloc, certified.sections.as_slice())?;
    write_life(&mut text, blocks.len(), &certified.life)?;
    Ok(text)
}
