//! How many workers live at once during a reload: the theorems. Each function has an empty body: its contract is the theorem.
#![tactic(auto)]

ghost use Rattle.stepped_reloads.specs.Steps.{RunsStayBelow, CeilingIsLow};

/// Whatever fails and whoever exits but the executing master, at no table of a reload do more of the master's workers live than
/// the fullest step has: of each step the old ones that are left, and all new ones up to it.
pub fn reloads_stay_below_their_ceiling()
    ensures { RunsStayBelow }
{}

/// Where neither side has more than one group, the ceiling is the workers of one step above those that were ready or are
/// wanted, whichever are more.
pub fn one_step_more_lives_at_once()
    ensures { CeilingIsLow }
{}
