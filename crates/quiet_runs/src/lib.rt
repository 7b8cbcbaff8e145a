//! That plans work: where nothing fails, each target is reached. The function has an empty body: its
//! contract is the theorem.
#![tactic(auto)]

ghost use Rattle.quiet_runs.specs.Quiet.{QuietIsDone};

/// From every start, under no event and with the resources that a target needs, each target ends
/// Done, without a cause and with its service, under all turns.
pub fn quiet_runs_are_done()
    ensures { QuietIsDone }
{}
