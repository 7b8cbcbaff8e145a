//! The program and its subcommands, as `clap` has them.
ghost use Rattle.std.specs.Prelude.{◌≡◌, IfOk, false};
ghost use Rattle.clap.specs.Words.{App, app_of, new_app, new_rule, rule_of, with_rule, with_subcommand};
ghost use Rattle.clap.specs.declared.builder.command.Command.TheViews.{out-Command};
ghost use Rattle.command_line.specs.Arguments.{adopt_app, bare_app, certify_app, check_app, child_app, code_rule, enact_app, explain_app, explore_app, flag_rule, option_rule, plan_app, prefork_app, program_rule, repeated_rule, required_rule, several_rule, supervise_app, with_answer, with_children, with_demands, with_family, with_files, with_goals, with_limits, with_readers, with_list, with_running, with_runs, with_start, with_words, word_rule, words_rule};

use crate::help::{
    ADOPT_HELP, ADOPT_NOTES, ANSWER_HELP, BARE_HELP, CERTIFY_NOTES, CHECK_NOTES, CHILD_NOTES,
    CODE_HELP, DEATHS_HELP, DOT_HELP, ENACT_NOTES, EVENTS_HELP, EXPLAIN_NOTES, EXPLORE_NOTES,
    FILES_HELP, FORBID_HELP, FROM_HELP, GOALS_HELP, HELD_HELP, JSON_HELP, LEAST_HELP, LIFE_HELP,
    LIMIT_HELP, LIST_HELP, PLAN_NOTES, PROGRAM_HELP, PROGRAM_NOTES, PROGRESS_HELP, READY_HELP,
    REQUIRE_HELP, STATE_HELP, SUPERVISE_NOTES, TO_HELP, TURNS_HELP, VERBOSE_HELP, WHY_HELP,
    WORD_HELP, WORDS_HELP, WORKERS_HELP,
};
use clap::{Arg, ArgAction, Command};
use std::alloc::{AllocError, Global};

/// The whole command line.
pub fn program<'a>(alloc: Global) -> Result<Command<'a>, AllocError>
    ensures { IfOk result (λ command. app_of command ≡ prefork_app) }
{
    with_readers(
        alloc,
        with_children(alloc, with_words(alloc, bare(alloc))?)?,
    )
}

/// The program without its subcommands.
fn bare<'a>(alloc: Global) -> Command<'a>
    ensures { app_of result ≡ bare_app }
{
    Command::new(alloc, "prefork")
        .about("Plan, rehearse, run and check the control words of a preforking master")
        .after_help(PROGRAM_NOTES)
        .version("0.2.0")
        .subcommand_required(true)
        .disable_help_subcommand(true)
}

/// The subcommands to which control words are told.
fn with_words<'a>(alloc: Global, command: Command<'a>) -> Result<Command<'a>, AllocError>
    ensures { IfOk result (λ more. app_of more ≡ with_words (app_of command.entry)) }
{
    let command = with_command(command, enact(alloc))?;
    let command = with_command(command, plan(alloc))?;
    with_command(command, explore(alloc))
}

/// The subcommands that are masters and workers.
fn with_children<'a>(alloc: Global, command: Command<'a>) -> Result<Command<'a>, AllocError>
    ensures { IfOk result (λ more. app_of more ≡ with_children (app_of command.entry)) }
{
    let command = with_command(command, supervise(alloc))?;
    let command = with_command(command, adopt(alloc))?;
    with_command(command, Ok(child(alloc)))
}

/// The subcommands that read texts and say what they are.
fn with_readers<'a>(alloc: Global, command: Command<'a>) -> Result<Command<'a>, AllocError>
    ensures { IfOk result (λ more. app_of more ≡ with_readers (app_of command.entry)) }
{
    let command = with_command(command, certify(alloc))?;
    let command = with_command(command, check(alloc))?;
    with_command(command, explain(alloc))
}

fn enact<'a>(alloc: Global) -> Result<Command<'a>, AllocError>
    ensures app { IfOk result (λ command. app_of command ≡ enact_app) }
    ensures own { IfOk result (λ command. (out-Command command).has_globals ≡ false) }
{
    let command = named(
        alloc,
        "enact",
        "Carry out control words on a modelled kernel",
        ENACT_NOTES,
    );
    let command = with_answer(alloc, command)?;
    let command = with_option(alloc, command, "held", "ADDRESS", HELD_HELP)?;
    let command = with_flag(alloc, command, "state", STATE_HELP)?;
    with_argument(command, words(alloc))
}

fn plan<'a>(alloc: Global) -> Result<Command<'a>, AllocError>
    ensures app { IfOk result (λ command. app_of command ≡ plan_app) }
    ensures own { IfOk result (λ command. (out-Command command).has_globals ≡ false) }
{
    let command = named(
        alloc,
        "plan",
        "Print the plan of a control word",
        PLAN_NOTES,
    );
    let command = with_answer(alloc, command)?;
    let command = with_flag(alloc, command, "dot", DOT_HELP)?;
    with_argument(command, word(alloc))
}

fn explore<'a>(alloc: Global) -> Result<Command<'a>, AllocError>
    ensures app { IfOk result (λ command. app_of command ≡ explore_app) }
    ensures own { IfOk result (λ command. (out-Command command).has_globals ≡ false) }
{
    let command = named(
        alloc,
        "explore",
        "Count how a control word can end",
        EXPLORE_NOTES,
    );
    let command = with_list(alloc, command)?;
    let command = with_runs(alloc, command)?;
    with_argument(with_demands(alloc, command)?, word(alloc))
}

/// The options of each subcommand that starts a master beside somebody else, `--list`,
/// `--progress` and `--deaths`.
fn with_list<'a>(alloc: Global, command: Command<'a>) -> Result<Command<'a>, AllocError>
    requires { (out-Command command).has_globals ≡ false }
    ensures app { IfOk result (λ more. app_of more ≡ with_list (app_of command.entry)) }
    ensures own { IfOk result (λ more. (out-Command more).has_globals ≡ false) }
{
    let command = with_answer(alloc, command)?;
    let command = with_option(alloc, command, "held", "ADDRESS", HELD_HELP)?;
    let command = with_flag(alloc, command, "list", LIST_HELP)?;
    let command = with_flag(alloc, command, "progress", PROGRESS_HELP)?;
    with_flag(alloc, command, "deaths", DEATHS_HELP)
}

/// The options that say which runs are tried, and how none may end.
fn with_runs<'a>(alloc: Global, command: Command<'a>) -> Result<Command<'a>, AllocError>
    requires { (out-Command command).has_globals ≡ false }
    ensures app { IfOk result (λ more. app_of more ≡ with_runs (app_of command.entry)) }
    ensures own { IfOk result (λ more. (out-Command more).has_globals ≡ false) }
{
    let command = with_option(alloc, command, "events", "K", EVENTS_HELP)?;
    let command = with_option(alloc, command, "turns", "TEXT", TURNS_HELP)?;
    let command = with_option(alloc, command, "limit", "N", LIMIT_HELP)?;
    with_option(alloc, command, "forbid", "END", FORBID_HELP)
}

/// The options that say what is demanded of the runs.
fn with_demands<'a>(alloc: Global, command: Command<'a>) -> Result<Command<'a>, AllocError>
    requires { (out-Command command).has_globals ≡ false }
    ensures app { IfOk result (λ more. app_of more ≡ with_demands (app_of command.entry)) }
    ensures own { IfOk result (λ more. (out-Command more).has_globals ≡ false) }
{
    let command = with_option(alloc, command, "require", "END", REQUIRE_HELP)?;
    with_option(alloc, command, "least", "N", LEAST_HELP)
}

fn supervise<'a>(alloc: Global) -> Result<Command<'a>, AllocError>
    ensures app { IfOk result (λ command. app_of command ≡ supervise_app) }
    ensures own { IfOk result (λ command. (out-Command command).has_globals ≡ false) }
{
    let command = named(
        alloc,
        "supervise",
        "Run a master and its workers",
        SUPERVISE_NOTES,
    );
    let command = with_family(alloc, command)?;
    let command = with_flag(alloc, command, "verbose", VERBOSE_HELP)?;
    with_flag(alloc, command, "why", WHY_HELP)
}

/// The options that say what a master's children are, and how long they may keep it waiting.
fn with_family<'a>(alloc: Global, command: Command<'a>) -> Result<Command<'a>, AllocError>
    requires { (out-Command command).has_globals ≡ false }
    ensures app { IfOk result (λ more. app_of more ≡ with_family (app_of command.entry)) }
    ensures own { IfOk result (λ more. (out-Command more).has_globals ≡ false) }
{
    let command = with_files(alloc, command)?;
    let command = with_argument(command, program_option(alloc))?;
    with_limits(alloc, command)
}

fn adopt<'a>(alloc: Global) -> Result<Command<'a>, AllocError>
    ensures app { IfOk result (λ command. app_of command ≡ adopt_app) }
    ensures own { IfOk result (λ command. (out-Command command).has_globals ≡ false) }
{
    let command = named(
        alloc,
        "adopt",
        "Be the new master of an upgrade; the old master starts it",
        ADOPT_NOTES,
    );
    let command = with_option(alloc, command, "program", "PROGRAM", ADOPT_HELP)?;
    with_limits(alloc, command)
}

/// The options that say how long a child may keep its master waiting.
fn with_limits<'a>(alloc: Global, command: Command<'a>) -> Result<Command<'a>, AllocError>
    requires { (out-Command command).has_globals ≡ false }
    ensures app { IfOk result (λ more. app_of more ≡ with_limits (app_of command.entry)) }
    ensures own { IfOk result (λ more. (out-Command more).has_globals ≡ false) }
{
    let command = with_option(alloc, command, "answer-within", "S", ANSWER_HELP)?;
    with_option(alloc, command, "ready-within", "S", READY_HELP)
}

fn child<'a>(alloc: Global) -> Command<'a>
    ensures app { app_of result ≡ child_app }
    ensures own { (out-Command result).has_globals ≡ false }
{
    named(
        alloc,
        "child",
        "Be a worker that answers its master and serves nothing",
        CHILD_NOTES,
    )
}

fn certify<'a>(alloc: Global) -> Result<Command<'a>, AllocError>
    ensures app { IfOk result (λ command. app_of command ≡ certify_app) }
    ensures own { IfOk result (λ command. (out-Command command).has_globals ≡ false) }
{
    let command = named(
        alloc,
        "certify",
        "Check blocks against plans and model",
        CERTIFY_NOTES,
    );
    let command = with_goals(alloc, command)?;
    let command = with_running(alloc, command)?;
    let command = with_flag(alloc, command, "json", JSON_HELP)?;
    let command = with_flag(alloc, command, "life", LIFE_HELP)?;
    with_option(alloc, command, "held", "ADDRESS", HELD_HELP)
}

fn check<'a>(alloc: Global) -> Result<Command<'a>, AllocError>
    ensures app { IfOk result (λ command. app_of command ≡ check_app) }
    ensures own { IfOk result (λ command. (out-Command command).has_globals ≡ false) }
{
    let command = named(
        alloc,
        "check",
        "Say whether configurations would be read, and why not",
        CHECK_NOTES,
    );
    let command = with_flag(alloc, command, "json", JSON_HELP)?;
    with_argument(command, several(alloc, "files", "FILE", FILES_HELP))
}

fn explain<'a>(alloc: Global) -> Result<Command<'a>, AllocError>
    ensures app { IfOk result (λ command. app_of command ≡ explain_app) }
    ensures own { IfOk result (λ command. (out-Command command).has_globals ≡ false) }
{
    let command = named(
        alloc,
        "explain",
        "Say what a code means and what to do; without a code, list all",
        EXPLAIN_NOTES,
    );
    with_argument(command, code(alloc))
}

/// A subcommand with no argument yet.
///
/// The one place where one is made: what `clap` says of a new command in full stays in here.
fn named<'a>(alloc: Global, name: &'a str, about: &'a str, notes: &'a str) -> Command<'a>
    ensures app { app_of result ≡ new_app name.entry.now }
    ensures own { (out-Command result).has_globals ≡ false }
{
    Command::new(alloc, name).about(about).after_help(notes)
}

/// A command with one subcommand more, if there was memory for it; none of its arguments is
/// another's too.
///
/// The one place where a subcommand is added: what `clap` says of it in full stays in here.
fn with_command<'a>(
    command: Command<'a>,
    part: Result<Command<'a>, AllocError>,
) -> Result<Command<'a>, AllocError>
    requires { IfOk part (λ made. (out-Command made).has_globals ≡ false) }
    ensures { IfOk result (λ more. (known : App) → IfOk part.entry (λ made. app_of made ≡ known)
        → app_of more ≡ with_subcommand (app_of command.entry) known.top) }
{
    let part = part?;
    command.subcommand(part)
}

/// The options of each subcommand that starts a master.
fn with_start<'a>(alloc: Global, command: Command<'a>) -> Result<Command<'a>, AllocError>
    requires { (out-Command command).has_globals ≡ false }
    ensures app { IfOk result (λ more. app_of more ≡ with_start (app_of command.entry)) }
    ensures own { IfOk result (λ more. (out-Command more).has_globals ≡ false) }
{
    let command = with_files(alloc, command)?;
    with_running(alloc, command)
}

/// The options that say how many workers a master has at its start, and `--why`.
fn with_running<'a>(alloc: Global, command: Command<'a>) -> Result<Command<'a>, AllocError>
    requires { (out-Command command).has_globals ≡ false }
    ensures app { IfOk result (λ more. app_of more ≡ with_running (app_of command.entry)) }
    ensures own { IfOk result (λ more. (out-Command more).has_globals ≡ false) }
{
    let command = with_option(alloc, command, "workers", "N", WORKERS_HELP)?;
    let command = with_flag(alloc, command, "bare", BARE_HELP)?;
    with_flag(alloc, command, "why", WHY_HELP)
}

/// The options of each subcommand that starts a master and prints an answer.
fn with_answer<'a>(alloc: Global, command: Command<'a>) -> Result<Command<'a>, AllocError>
    requires { (out-Command command).has_globals ≡ false }
    ensures app { IfOk result (λ more. app_of more ≡ with_answer (app_of command.entry)) }
    ensures own { IfOk result (λ more. (out-Command more).has_globals ≡ false) }
{
    let command = with_start(alloc, command)?;
    with_flag(alloc, command, "json", JSON_HELP)
}

/// The options that name the configurations.
fn with_files<'a>(alloc: Global, command: Command<'a>) -> Result<Command<'a>, AllocError>
    requires { (out-Command command).has_globals ≡ false }
    ensures app { IfOk result (λ more. app_of more ≡ with_files (app_of command.entry)) }
    ensures own { IfOk result (λ more. (out-Command more).has_globals ≡ false) }
{
    let command = with_option(alloc, command, "from", "FILE", FROM_HELP)?;
    with_option(alloc, command, "to", "FILE", TO_HELP)
}

/// The options that name the configuration of a start, and those that words went over to.
fn with_goals<'a>(alloc: Global, command: Command<'a>) -> Result<Command<'a>, AllocError>
    requires { (out-Command command).has_globals ≡ false }
    ensures app { IfOk result (λ more. app_of more ≡ with_goals (app_of command.entry)) }
    ensures own { IfOk result (λ more. (out-Command more).has_globals ≡ false) }
{
    let command = with_option(alloc, command, "from", "FILE", FROM_HELP)?;
    with_argument(command, repeated(alloc, "to", "FILE", GOALS_HELP))
}

/// A command with one argument more, which is its own and not its subcommands' too.
///
/// The one place where an argument is added: what `clap` says of it in full stays in here.
fn with_argument<'a>(command: Command<'a>, argument: Arg<'a>) -> Result<Command<'a>, AllocError>
    requires command { (out-Command command).has_globals ≡ false }
    requires argument { argument.global ≡ false }
    ensures app { IfOk result (λ more. app_of more ≡ with_rule (app_of command.entry) (rule_of argument.entry)) }
    ensures own { IfOk result (λ more. (out-Command more).has_globals ≡ false) }
{
    command.arg(argument)
}

/// With `--NAME VALUE`.
fn with_option<'a>(
    alloc: Global,
    command: Command<'a>,
    name: &'a str,
    value: &'a str,
    help: &'a str,
) -> Result<Command<'a>, AllocError>
    requires { (out-Command command).has_globals ≡ false }
    ensures app { IfOk result (λ more. app_of more ≡ with_rule (app_of command.entry) (option_rule name.entry.now)) }
    ensures own { IfOk result (λ more. (out-Command more).has_globals ≡ false) }
{
    with_argument(command, option(alloc, name, value, help))
}

/// With `--NAME`.
fn with_flag<'a>(
    alloc: Global,
    command: Command<'a>,
    name: &'a str,
    help: &'a str,
) -> Result<Command<'a>, AllocError>
    requires { (out-Command command).has_globals ≡ false }
    ensures app { IfOk result (λ more. app_of more ≡ with_rule (app_of command.entry) (flag_rule name.entry.now)) }
    ensures own { IfOk result (λ more. (out-Command more).has_globals ≡ false) }
{
    with_argument(command, flag(alloc, name, help))
}

/// An argument of which no more is said yet than its name.
///
/// The one place where one is made: what `clap` says of a new argument in full stays in here.
fn argument<'a>(alloc: Global, name: &'a str, help: &'a str) -> Arg<'a>
    ensures rule { rule_of result ≡ new_rule name.entry.now }
    ensures own { result.global ≡ false }
{
    Arg::new(alloc, name).help(help)
}

/// An argument with a value.
fn valued<'a>(alloc: Global, name: &'a str, value: &'a str, help: &'a str) -> Arg<'a>
    ensures rule { rule_of result ≡ record (new_rule name.entry.now) { value_names = 1 } }
    ensures own { result.global ≡ false }
{
    argument(alloc, name, help).value_name(value)
}

/// `--NAME VALUE`
fn option<'a>(alloc: Global, name: &'a str, value: &'a str, help: &'a str) -> Arg<'a>
    ensures rule { rule_of result ≡ option_rule name.entry.now }
    ensures own { result.global ≡ false }
{
    valued(alloc, name, value, help)
        .long(name)
        .action(ArgAction::Set)
}

/// `--NAME VALUE`, as often as it is given
fn repeated<'a>(alloc: Global, name: &'a str, value: &'a str, help: &'a str) -> Arg<'a>
    ensures rule { rule_of result ≡ repeated_rule name.entry.now }
    ensures own { result.global ≡ false }
{
    option(alloc, name, value, help).action(ArgAction::Append)
}

/// `--program PROGRAM`, which must be there.
fn program_option<'a>(alloc: Global) -> Arg<'a>
    ensures rule { rule_of result ≡ program_rule }
    ensures own { result.global ≡ false }
{
    option(alloc, "program", "PROGRAM", PROGRAM_HELP).required(true)
}

/// `--NAME`
fn flag<'a>(alloc: Global, name: &'a str, help: &'a str) -> Arg<'a>
    ensures rule { rule_of result ≡ flag_rule name.entry.now }
    ensures own { result.global ≡ false }
{
    argument(alloc, name, help)
        .long(name)
        .action(ArgAction::SetTrue)
}

/// `VALUE`, which must be there.
fn required<'a>(alloc: Global, name: &'a str, value: &'a str, help: &'a str) -> Arg<'a>
    ensures rule { rule_of result ≡ required_rule name.entry.now }
    ensures own { result.global ≡ false }
{
    valued(alloc, name, value, help).required(true)
}

/// `VALUE..`, of which one must be there.
fn several<'a>(alloc: Global, name: &'a str, value: &'a str, help: &'a str) -> Arg<'a>
    ensures rule { rule_of result ≡ several_rule name.entry.now }
    ensures own { result.global ≡ false }
{
    required(alloc, name, value, help)
        .num_args(1..)
        .action(ArgAction::Append)
}

fn words<'a>(alloc: Global) -> Arg<'a>
    ensures rule { rule_of result ≡ words_rule }
    ensures own { result.global ≡ false }
{
    several(alloc, "words", "WORD", WORDS_HELP)
}

fn word<'a>(alloc: Global) -> Arg<'a>
    ensures rule { rule_of result ≡ word_rule }
    ensures own { result.global ≡ false }
{
    required(alloc, "word", "WORD", WORD_HELP).action(ArgAction::Set)
}

fn code<'a>(alloc: Global) -> Arg<'a>
    ensures rule { rule_of result ≡ code_rule }
    ensures own { result.global ≡ false }
{
    valued(alloc, "code", "CODE", CODE_HELP).action(ArgAction::Set)
}
