//! How a master on the modelled kernel begins: as is asked, and as files say.
ghost use Rattle.std.specs.Prelude.{IfOk, IfErr, OnOk, option_map};
ghost use Rattle.master_on_kernel.specs.Beginnings.{HasBegun, HoldsNamed, IsOfBeginning, IsOfNamed};

use crate::{Rehearsal, Start, StartSetup};
use faults::Fault;
use std::rt::Files;

/// Reads the files and boots the master, and lets a foreign process hold the address that is named.
pub fn begin<R: AllocGlobal + Files>(
    rt: &R,
    setup: &StartSetup<'_>,
    held: Option<&str>,
) -> Result<Rehearsal, Fault>
    ensures ok { IfOk result (HasBegun setup.now (option_map (λ text. text.now) held.entry)) }
    ensures err { IfErr result (IsOfBeginning setup.now (option_map (λ text. text.now) held.entry)) }
{
    let start = Start::read(rt, setup)?;
    let mut rehearsal = Rehearsal::start(rt.alloc(), &start)?;
    hold(&mut rehearsal, held)?;
    Ok(rehearsal)
}

/// Lets a foreign process hold the address that is named, if one is.
fn hold(rehearsal: &mut Rehearsal, held: Option<&str>) -> Result<(), Fault>
    ensures ok { OnOk result (HoldsNamed (option_map (λ text. text.now) held.entry) rehearsal.old rehearsal.new) }
    ensures err { IfErr result (IsOfNamed (option_map (λ text. text.now) held.entry) rehearsal.old) }
{
    match held {
        Some(address) => rehearsal.hold(address),
        None => Ok(()),
    }
}
