//! What carries targets out.
ghost use Rattle.std.specs.Prelude.{◌≡◌, ℕ, List, OnErr, IfOk, IfErr, IsErrOf};
ghost use Rattle.definitions.specs.Master.{Record as Known};
ghost use Rattle.service_state.specs.Targets.{IsTarget};
ghost use Rattle.vocabulary.specs.declared.targets.Target.{Target as Wanted};
ghost use Rattle.word_runner.specs.declared.enactor.Enacted.{Enacted as Done};
ghost use Rattle.word_runner.specs.Enactors.{HasCode};

use crate::CodeText;
use plan_walk::Transcript;
use service_state::Record;
use std::alloc::Global;
use vocabulary::{Report, Target};

/// What came of a target.
#[derive(Drop)]
pub struct Enacted {
    /// The calls that were made, with their answers.
    pub log: Transcript,
    pub report: Report,
    /// The record of the master that runs then; none after a stop.
    pub after: Option<Record>,
}

/// Why a target is not carried out.
#[derive(Drop)]
pub enum TargetRefusal {
    /// Memory was refused before the first call.
    Memory,
    /// A refusal with its code.
    Coded(CodeText),
}

/// Carries out the targets of a running master, on a modelled kernel or on real children.
///
/// Its ghost members say what a success and what a refusal promise, so that the law of words speaks
/// of both alike.
pub trait Enactor {
    /// What targets are carried out on.
    type World;

    /// What a success says: of the world before, which word asked, the record, the target, what came
    /// of it, and the world afterwards.
    ghost enacts: { Self → Self.World → ℕ → Known → Wanted → Done → Self.World → Type 0 };

    /// What a refusal with a code says: of the world, which word asked, the record and the target.
    ghost declines: { Self → Self.World → ℕ → Known → Wanted → List ℕ → Type 0 };

    /// What want of memory says: of the world, which word asked, the record and the target.
    ghost wants_memory: { Self → Self.World → ℕ → Known → Wanted → Type 0 };

    /// Carries a target out for the master of a record. The word that asks for it has this place
    /// among the words that are carried out, counted from 0. A refusal changes nothing.
    fn enact(
        &self,
        alloc: Global,
        world: &mut Self::World,
        place: usize,
        state: &Record,
        target: &Target,
    ) -> Result<Enacted, TargetRefusal>
        requires { IsTarget target.now }
        ensures ok { IfOk result (λ done. enacts self.now world.old place state.now target.now done world.new) }
        ensures declined { IfErr result (HasCode (declines self.now world.old place state.now target.now)) }
        ensures memory { IsErrOf result TargetRefusal.Memory → wants_memory self.now world.old place state.now target.now }
        ensures err { OnErr result (world.new ≡ world.old) };
}
