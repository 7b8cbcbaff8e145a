//! The command line of `prefork`, read by `clap`.
#![tactic(auto)]

ghost use Rattle.std.specs.Prelude.{◌≡◌, IfErr, IfNone, IfOk, IfSome, IsErrOf, List, ℕ, map, string_bytes};
ghost use Rattle.clap.specs.Words.{HasKind, fault_of, kind_of};
ghost use Rattle.command_line.specs.Arguments.{AreMatchesOf, Asks, AsksForNoChild, AsksText, IsRefusedBy, IsUsageFault, Takes, TakesMemory, prefork_app};

mod commands;
mod help;
mod options;
mod refusal;

use clap::error::ErrorKind;
use clap::{ArgMatches, Error};
pub use options::{
    AdoptOptions, CertifyOptions, CheckOptions, EnactOptions, ExplainOptions, ExploreOptions,
    LimitOptions, PlanOptions, StartOptions, SuperviseOptions,
};
use options::{
    adopt_options, certify_options, check_options, enact_options, explain_options, explore_options,
    plan_options, supervise_options,
};
pub use refusal::Refusal;
use refusal::UsageFault;
use std::alloc::{AllocError, Global};

/// What the command line asks for.
#[derive(Drop)]
pub enum Request<'a> {
    /// `enact`: carry out control words on a modelled kernel.
    Enact(EnactOptions<'a>),
    /// `plan`: show what a control word would do.
    Plan(PlanOptions<'a>),
    /// `explore`: count how a control word ends whatever goes wrong.
    Explore(ExploreOptions<'a>),
    /// `certify`: compare blocks with plans and kernel.
    Certify(CertifyOptions<'a>),
    /// `check`: say of files whether they would be read as configurations.
    Check(CheckOptions<'a>),
    /// `supervise`: run a master and its workers.
    Supervise(SuperviseOptions<'a>),
    /// `adopt`: be the new master of an upgrade.
    Adopt(AdoptOptions<'a>),
    /// `child`: be a worker that serves nothing.
    Child,
    /// `explain`: say what a code means.
    Explain(ExplainOptions<'a>),
    /// `--help` or `--version`: write this text to standard output.
    Show(String),
}

/// Reads the arguments of the process, of which the first is the program's name.
///
/// - `Usage` where `clap` refuses them or the value of an option that takes a number isn't a decimal one up to
///   4,294,967,295 without leading zeros.
/// - `Memory` where a growth was refused, in `clap` too.
pub fn read<'a>(alloc: Global, args: &'a [String]) -> Result<Request<'a>, Refusal>
    ensures asks { IfOk result (Asks (map string_bytes args.entry.now)) }
    ensures refused { IfErr result (IsRefusedBy (map string_bytes args.entry.now)) }
{
    match commands::program(alloc)?.try_get_matches_from(args) {
        Ok(matches) => request_of(alloc, &matches),
        Err(error) => shown_by(alloc, &error),
    }
}

/// What `clap` says of arguments that ask for nothing: a text of some lines, for people. None where
/// it takes them, or answers them with the help or the version. `AllocError` where memory was
/// refused, in `clap` too.
pub fn complaint(alloc: Global, args: &[String]) -> Result<Option<String>, AllocError>
    ensures said { IfOk result (λ said. IfSome said (λ _. IsUsageFault (map string_bytes args.now))) }
    ensures silent { IfOk result (λ said. IfNone said (Takes (map string_bytes args.now))) }
{
    match commands::program(alloc)?.try_get_matches_from(args) {
        Ok(_) => Ok(None),
        Err(error) => complaint_in(alloc, &error),
    }
}

/// What a fault of `clap` says; none where that is the help or the version.
fn complaint_in(alloc: Global, error: &Error) -> Result<Option<String>, AllocError>
    ensures said { (arguments : List (List ℕ)) → HasKind (fault_of prefork_app arguments) error.now
        → IfOk result (λ said. IfSome said (λ _. IsUsageFault arguments)) }
    ensures silent { (arguments : List (List ℕ)) → HasKind (fault_of prefork_app arguments) error.now
        → IfOk result (λ said. IfNone said (AsksText arguments)) }
{
    match error.kind() {
        ErrorKind::OutOfMemory => Err(AllocError),
        ErrorKind::DisplayHelp | ErrorKind::DisplayVersion => Ok(None),
        _ => Ok(Some(format!(in alloc; "{error}")?)),
    }
}

fn request_of<'a>(alloc: Global, matches: &ArgMatches<'a>) -> Result<Request<'a>, Refusal>
    ensures asks { (arguments : List (List ℕ)) → AreMatchesOf arguments matches.now
        → IfOk result (Asks arguments) }
    ensures refused { (arguments : List (List ℕ)) → AreMatchesOf arguments matches.now
        → IfErr result (IsRefusedBy arguments) }
{
    if let Some(found) = matches.subcommand_matches("enact") {
        return Ok(Request::Enact(enact_options(alloc, found)?));
    }
    if let Some(found) = matches.subcommand_matches("plan") {
        return Ok(Request::Plan(plan_options(found)?));
    }
    if let Some(found) = matches.subcommand_matches("explore") {
        return Ok(Request::Explore(explore_options(found)?));
    }
    if let Some(found) = matches.subcommand_matches("certify") {
        return Ok(Request::Certify(certify_options(alloc, found)?));
    }
    if let Some(found) = matches.subcommand_matches("check") {
        return Ok(Request::Check(check_options(alloc, found)?));
    }
    if let Some(found) = matches.subcommand_matches("explain") {
        return Ok(Request::Explain(explain_options(found)));
    }
    Ok(child_request_of(matches)?)
}

/// A request for a master that runs, or for one of its children.
fn child_request_of<'a>(matches: &ArgMatches<'a>) -> Result<Request<'a>, UsageFault>
    ensures asks { (arguments : List (List ℕ)) → AreMatchesOf arguments matches.now
        → IfOk result (Asks arguments) }
    ensures usage { (arguments : List (List ℕ)) → AreMatchesOf arguments matches.now
        → IfErr result (λ _. AsksForNoChild arguments) }
{
    if let Some(found) = matches.subcommand_matches("supervise") {
        return Ok(Request::Supervise(supervise_options(found)?));
    }
    if let Some(found) = matches.subcommand_matches("adopt") {
        return Ok(Request::Adopt(adopt_options(found)?));
    }
    match matches.subcommand_matches("child") {
        Some(_) => Ok(Request::Child),
        None => Err(UsageFault),
    }
}

/// What `clap` answers when it gives no matches: a text that was asked for, or a fault. Want of
/// memory is told only where `clap` tells it, or where a text is to be written.
fn shown_by<'a>(alloc: Global, error: &Error) -> Result<Request<'a>, Refusal>
    ensures asks { (arguments : List (List ℕ)) → HasKind (fault_of prefork_app arguments) error.now
        → IfOk result (Asks arguments) }
    ensures refused { (arguments : List (List ℕ)) → HasKind (fault_of prefork_app arguments) error.now
        → IfErr result (IsRefusedBy arguments) }
    ensures memory { IsErrOf result Refusal.Memory → TakesMemory (kind_of error.now) }
{
    match error.kind() {
        ErrorKind::DisplayHelp | ErrorKind::DisplayVersion => {
            Ok(Request::Show(format!(in alloc; "{error}")?))
        }
        ErrorKind::OutOfMemory => Err(Refusal::Memory),
        _ => Err(Refusal::Usage),
    }
}
