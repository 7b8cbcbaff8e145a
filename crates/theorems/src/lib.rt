//! The theorems on plans and their runs, over the definitions alone. Each function has an empty
//! body: its contract is the theorem.
#![tactic(auto)]

ghost use Rattle.call_laws.specs.Start.{StartsAgree};
ghost use Rattle.theorems.specs.Apart.{LastNewIsNone, MergesAreWoven, WalksApart};
ghost use Rattle.definitions.specs.Claims.{Headline};
ghost use Rattle.run_laws.specs.Lengths.{PlansFit, RunsWithin, UpgradesAreShort};
ghost use Rattle.theorems.specs.Settling.{PlansGoBack, ReturnsAlways, SettlesAlways};
ghost use Rattle.theorems.specs.Examples.{HasStart};
ghost use Rattle.theorems.specs.Layouts.{RecordsLaidOut, StartsLaidOut};
ghost use Rattle.theorems.specs.WorkedRuns.{WorkedRuns};
ghost use Rattle.theorems.specs.WrongTables.{WrongTables};

/// The headline: whatever fails and whoever exits but an executing master, and in whatever order two
/// masters act, the run of a target's plan ends as it reports, keeps what it has to, and has the
/// manner of its target.
pub fn plans_end_as_reported()
    ensures { Headline }
{}

/// A settle ends full with all its numbers Ready, or short by just those that are missing, which
/// failures and losses account for; and so does a way back, which ends with one.
pub fn settles_end_as_counted()
    ensures settle { SettlesAlways }
    ensures back { ReturnsAlways }
    ensures plans { PlansGoBack }
{}

/// A run makes no more calls than the longest path of its plan has steps; nor has the plan of a
/// target more under any turns than its stretches have together, which for an upgrade is bounded.
pub fn runs_stay_within()
    ensures runs { RunsWithin }
    ensures plans { PlansFit }
    ensures upgrades { UpgradesAreShort }
{}

/// A walk of two parts side by side is a walk of each, merged as the turns say, and any merge of
/// two such walks is one of both under the turns that it uses.
pub fn parts_are_walked()
    ensures apart { WalksApart }
    ensures merges { MergesAreWoven }
    ensures last { LastNewIsNone }
{}

/// Plans that are run on a small table, call by call.
pub fn worked_runs_hold()
    ensures { WorkedRuns }
{}

/// Tables and runs that break a claim, one for each.
pub fn wrong_tables_are_refuted()
    ensures { WrongTables }
{}

/// A kernel that starts with some settings agrees with the record of a master that starts with them.
pub fn starts_agree()
    ensures { StartsAgree }
{}

/// A master that starts listens as its configuration lays out.
pub fn starts_are_laid_out()
    ensures { StartsLaidOut }
{}

/// The record that a plan leaves listens as the side that its outcome names is laid out.
pub fn records_are_laid_out()
    ensures { RecordsLaidOut }
{}

/// A table that meets the premises of the theorems.
pub fn a_start_exists()
    ensures { HasStart }
{}
