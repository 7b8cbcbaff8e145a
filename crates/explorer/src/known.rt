//! Runs that are known from the call before.
ghost use Rattle.std.specs.Prelude.{◌≡◌, true, Contains, IfSome};
ghost use Rattle.explorer.specs.declared.events.Mishap.TheVariants.{Exit};
ghost use Rattle.explorer.specs.Known.{passes_by};

use crate::events::Mishap;
use vocabulary::{Call, Name, Report};

/// What a run reports, and how many tables it passes after its event.
#[derive(Clone, Copy)]
pub(crate) struct RestOfRun {
    pub(crate) report: Report,
    pub(crate) tables: u64,
}

/// What is known of the run in which this process exits before a call.
#[derive(Clone, Copy)]
pub(crate) struct Known {
    pub(crate) name: Name,
    pub(crate) process: u32,
    pub(crate) rest: RestOfRun,
}

/// Whether a call names a worker, and another one than this. Then it makes no difference whether this one exits before the call
/// or after it.
fn passes_by(call: &Call, name: Name) -> bool
    ensures { result ≡ passes_by call.now name }
{
    let Name::Worker(generation, nr) = name else {
        return false;
    };
    match *call {
        Call::Fork(other, number, _)
        | Call::AwaitReady(other, number)
        | Call::Quit(other, number)
        | Call::Kill(other, number)
        | Call::AwaitGone(other, number)
        | Call::Usr1(other, number) => !(other == generation && number == nr),
        _ => false,
    }
}

/// What is known of the run with this mishap.
pub(crate) fn find(known: &[Known], mishap: Mishap) -> Option<RestOfRun>
    ensures { IfSome result (λ rest. (k : Known) × Contains known.now k × (mishap ≡ Exit k.name k.process) × (rest ≡ k.rest)) }
{
    let Mishap::Exit(name, process) = mishap else {
        return None;
    };
    for it in known {
        if it.process == process && it.name == name {
            return Some(it.rest);
        }
    }
    None
}

/// What is known of the run with this mishap at the next call, if that is the same run.
pub(crate) fn known_at_next(call: &Call, mishap: Mishap, rest: RestOfRun) -> Option<Known>
    ensures { IfSome result (λ k. (passes_by call.now k.name ≡ true) × (mishap ≡ Exit k.name k.process) × (rest ≡ k.rest)) }
{
    match mishap {
        Mishap::Exit(name, process) if passes_by(call, name) => Some(Known {
            name,
            process,
            rest,
        }),
        _ => None,
    }
}
