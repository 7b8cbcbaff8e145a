//! What an upgrade does only once something else was done: its new master adopts first, and the
//! operator of an attended one is asked. And no run ends at a mark. Each function has an empty body:
//! its contract is the theorem.
#![tactic(auto)]

ghost use Rattle.upgrade_theorems.specs.First.{HeirsAdoptFirst, OperatorsAreAsked};
ghost use Rattle.upgrade_theorems.specs.Marks.{RunsEndAtNoMark};

/// The new master of an upgrade makes no call before it has adopted, whatever fails.
pub fn heirs_adopt_first()
    ensures { HeirsAdoptFirst }
{}

/// In an attended upgrade nobody is told to quit before the operator went on at the first question,
/// and no master leaves before that at the second one.
pub fn operators_are_asked()
    ensures { OperatorsAreAsked }
{}

/// An accepted run ends at one of the four ends of a plan that a report names.
pub fn runs_end_at_no_mark()
    ensures { RunsEndAtNoMark }
{}
