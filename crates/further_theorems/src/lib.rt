//! What a run keeps beside the headline: whose workers, files and addresses its calls touch, what the
//! record that it leaves has, and that every merge of two masters' calls is a run. Each function has
//! an empty body: its contract is the theorem.
#![tactic(auto)]

ghost use Rattle.further_theorems.specs.Bound.{OperatorsAreObeyed};
ghost use Rattle.further_theorems.specs.Left.{RecordsAreLeft};
ghost use Rattle.further_theorems.specs.Merges.{MergesAreRuns, WalksAreRuns};
ghost use Rattle.further_theorems.specs.Named.{WorkersEndByName};
ghost use Rattle.further_theorems.specs.Peace.{WorkersEndInPeace};
ghost use Rattle.further_theorems.specs.Proper.{CallsAreProper, FilesOfOthersStay};

/// Each call is made by the master whose workers it names, and touches no file, address or master of
/// others: whatever fails, and from any table.
pub fn calls_are_proper()
    ensures calls { CallsAreProper }
    ensures files { FilesOfOthersStay }
{}

/// The record that a report leaves has the settings of the side that the outcome names.
pub fn records_are_left()
    ensures { RecordsAreLeft }
{}

/// A walk of a plan whose answers the kernel gives is the run of the plan; and so is any merge of two
/// masters' calls, under the turns that it uses.
pub fn merges_are_runs()
    ensures walks { WalksAreRuns }
    ensures merges { MergesAreRuns }
{}

/// Once the operator of an attended upgrade went back nobody is told to quit any more, and the upgrade
/// ends on the old side.
pub fn operators_are_obeyed()
    ensures { OperatorsAreObeyed }
{}

/// A call takes a worker away only if it names it, or ends a master: process by process, whatever
/// fails, and from any table.
pub fn workers_end_by_name()
    ensures { WorkersEndByName }
{}

/// Each worker that is ready when a word begins ends in peace: it is told to quit and drains, and is
/// waited for before anything takes it. Not at a mend, nor at a quick stop.
pub fn workers_end_in_peace()
    ensures { WorkersEndInPeace }
{}
