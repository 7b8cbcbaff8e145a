//! The options and words of the subcommands, as `clap` found them.
ghost use Rattle.std.specs.Prelude.{◌≡◌, ◌≢◌, IfErr, IfOk, IsErrOf, List, Option, None, Some, ℕ, [], codes, option_map, unwrap_or};
ghost use Rattle.clap.specs.Walk.{Text, all_of, texts};
ghost use Rattle.clap.specs.Words.{first_of, found_of, rows_of};
ghost use Rattle.command_line.specs.Arguments.{Adoption, Certification, Checking, Enactment, Exploration, FindsAdoption, FindsCertification, FindsChecking, FindsEnactment, FindsExploration, FindsLimiting, FindsPlanning, FindsStart, FindsSupervision, IsNumber, Limiting, Planning, Start, Supervision, adoption_of, certification_of, checking_of, enactment_of, exploration_of, is_given, limiting_of, planning_of, start_of, supervision_of};

use crate::Refusal;
use crate::refusal::UsageFault;
use clap::ArgMatches;
use plain_text::read_number;
use std::alloc::{AllocError, Global};

/// How a master starts, and which files it reads.
#[derive(Clone, Copy)]
pub struct StartOptions<'a> {
    /// `--from`: the file of the start's configuration. Without it the defaults hold.
    pub from: Option<&'a str>,
    /// `--to`: the file of the configuration that HUP and USR2 go over to. Without it it is the
    /// start's.
    pub to: Option<&'a str>,
    /// `--workers`: how many workers are wanted and run at the start. Without it the
    /// configuration's count holds.
    pub workers: Option<u32>,
    /// `--bare`: no worker runs at the start, however many are wanted.
    pub bare: bool,
    /// `--why`: behind the line of a fault more is said of it.
    pub why: bool,
    /// `--json`: the answer is JSON.
    pub json: bool,
}

/// The options and words of `enact`.
#[derive(Drop)]
pub struct EnactOptions<'a> {
    /// How the master starts.
    pub start: StartOptions<'a>,
    /// `--held`: an address that a foreign process holds.
    pub held: Option<&'a str>,
    /// `--state`: the table of processes, files and the service is written last.
    pub state: bool,
    /// The control words in their order, at least one.
    pub words: Vec<&'a str>,
}

/// The options and the word of `plan`.
#[derive(Clone, Copy)]
pub struct PlanOptions<'a> {
    /// How the master starts.
    pub start: StartOptions<'a>,
    /// `--dot`: the plan is drawn for Graphviz.
    pub dot: bool,
    /// The control word.
    pub word: &'a str,
}

/// The options and the word of `explore`.
#[derive(Clone, Copy)]
pub struct ExploreOptions<'a> {
    /// How the master starts.
    pub start: StartOptions<'a>,
    /// `--held`: an address that a foreign process holds.
    pub held: Option<&'a str>,
    /// `--events`: how many events a run has at most. Without it one.
    pub events: Option<u32>,
    /// `--turns`: a letter for each turn of two masters, `n` or `o`, or `all` orders of them. Without it the new one goes first.
    pub turns: Option<&'a str>,
    /// `--limit`: how many runs there are at most. Without it as many as it takes.
    pub limit: Option<u32>,
    /// `--forbid`: the end that is to be answered with a status of its own.
    pub forbid: Option<&'a str>,
    /// `--require`: the end without which the answer has a status of its own.
    pub require: Option<&'a str>,
    /// `--least`: how many ready workers each address that stays is to have at least.
    pub least: Option<u32>,
    /// `--list`: each run is printed.
    pub list: bool,
    /// `--progress`: how many runs were counted is told while they are.
    pub progress: bool,
    /// `--deaths`: the deaths of the master are counted instead.
    pub deaths: bool,
    /// The control word.
    pub word: &'a str,
}

/// The options of `certify`.
#[derive(Drop)]
pub struct CertifyOptions<'a> {
    /// How the master of the transcript started. The file of `--to` is the first.
    pub start: StartOptions<'a>,
    /// `--held`: an address that a foreign process holds.
    pub held: Option<&'a str>,
    /// `--to`: all files, in their order.
    pub goals: Vec<&'a str>,
    /// `--life`: what holds of the whole life is written last.
    pub life: bool,
}

/// What `check` is asked.
#[derive(Drop)]
pub struct CheckOptions<'a> {
    /// The files in their order, at least one.
    pub files: Vec<&'a str>,
    /// `--json`: the answer is JSON.
    pub json: bool,
}

/// How long a child may keep its master waiting, in seconds; 0 is without a limit.
#[derive(Clone, Copy)]
pub struct LimitOptions {
    /// `--answer-within`: for an answer.
    pub answer_within: Option<u32>,
    /// `--ready-within`: for its first line, and for its end.
    pub ready_within: Option<u32>,
}

/// The options of `supervise`.
#[derive(Clone, Copy)]
pub struct SuperviseOptions<'a> {
    /// `--program`: the executable of workers and of a new master.
    pub program: &'a str,
    /// `--from`: the file of the start's configuration. Without it the defaults hold.
    pub from: Option<&'a str>,
    /// `--to`: the file that HUP and USR2 read anew. Without it it is the start's.
    pub to: Option<&'a str>,
    /// How long a child may keep the master waiting.
    pub limits: LimitOptions,
    /// `--verbose`: a line for each block on standard error.
    pub verbose: bool,
    /// `--why`: behind the line of a fault more is said of it.
    pub why: bool,
}

/// The options of `adopt`.
#[derive(Clone, Copy)]
pub struct AdoptOptions<'a> {
    /// `--program`: the executable of its workers. Without it it is the master's own.
    pub program: Option<&'a str>,
    /// How long a child may keep it waiting.
    pub limits: LimitOptions,
}

/// What `explain` is asked.
#[derive(Clone, Copy)]
pub struct ExplainOptions<'a> {
    /// The code that is explained. Without one all are listed.
    pub code: Option<&'a str>,
}

/// The options of `enact`; `Usage` where `--workers` has no number.
pub(crate) fn enact_options<'a>(
    alloc: Global,
    found: &ArgMatches<'a>,
) -> Result<EnactOptions<'a>, Refusal>
    ensures found { IfOk result (λ options.
        FindsEnactment (rows_of (found_of found.now)) (enactment_of options)) }
    ensures usage { IsErrOf result Refusal.Usage → (values : Enactment)
        → ¬ FindsEnactment (rows_of (found_of found.now)) values }
{
    let start = start_options(found)?;
    let words = texts_of(alloc, found, "words")?;
    Ok(EnactOptions {
        start,
        held: text_of(found, "held"),
        state: has_flag(found, "state"),
        words,
    })
}

/// The options of `plan`, unless `--workers` has no number.
pub(crate) fn plan_options<'a>(found: &ArgMatches<'a>) -> Result<PlanOptions<'a>, UsageFault>
    ensures found { IfOk result (λ options.
        FindsPlanning (rows_of (found_of found.now)) (planning_of options)) }
    ensures usage { IfErr result (λ _. (values : Planning)
        → ¬ FindsPlanning (rows_of (found_of found.now)) values) }
{
    let start = start_options(found)?;
    match text_of(found, "word") {
        Some(word) => Ok(PlanOptions {
            start,
            dot: has_flag(found, "dot"),
            word,
        }),
        None => Err(UsageFault),
    }
}

/// The options of `explore`, unless `--workers`, `--events`, `--limit` or `--least` has no number.
pub(crate) fn explore_options<'a>(found: &ArgMatches<'a>) -> Result<ExploreOptions<'a>, UsageFault>
    ensures found { IfOk result (λ options.
        FindsExploration (rows_of (found_of found.now)) (exploration_of options)) }
    ensures usage { IfErr result (λ _. (values : Exploration)
        → ¬ FindsExploration (rows_of (found_of found.now)) values) }
{
    let start = start_options(found)?;
    let events = number_of(found, "events")?;
    let limit = number_of(found, "limit")?;
    let least = number_of(found, "least")?;
    let address = text_of(found, "held");
    Ok(ExploreOptions {
        start,
        held: address,
        events,
        turns: text_of(found, "turns"),
        limit,
        forbid: text_of(found, "forbid"),
        require: text_of(found, "require"),
        least,
        list: has_flag(found, "list"),
        progress: has_flag(found, "progress"),
        deaths: has_flag(found, "deaths"),
        word: word_of(found)?,
    })
}

/// The control word, which must be there.
fn word_of<'a>(found: &ArgMatches<'a>) -> Result<&'a str, UsageFault>
    ensures found { IfOk result (λ word. first_of (codes "word") (rows_of (found_of found.now)) ≡ Some word.now) }
    ensures usage { IfErr result (λ _. first_of (codes "word") (rows_of (found_of found.now)) ≡ None) }
{
    match text_of(found, "word") {
        Some(word) => Ok(word),
        None => Err(UsageFault),
    }
}

/// The options of `certify`; `Usage` where `--workers` has no number.
pub(crate) fn certify_options<'a>(
    alloc: Global,
    found: &ArgMatches<'a>,
) -> Result<CertifyOptions<'a>, Refusal>
    ensures found { IfOk result (λ options.
        FindsCertification (rows_of (found_of found.now)) (certification_of options)) }
    ensures usage { IsErrOf result Refusal.Usage → (values : Certification)
        → ¬ FindsCertification (rows_of (found_of found.now)) values }
{
    let start = start_options(found)?;
    let goals = any_texts_of(alloc, found, "to")?;
    let held = text_of(found, "held");
    Ok(CertifyOptions {
        start,
        held,
        goals,
        life: has_flag(found, "life"),
    })
}

/// What `check` is asked.
pub(crate) fn check_options<'a>(
    alloc: Global,
    found: &ArgMatches<'a>,
) -> Result<CheckOptions<'a>, Refusal>
    ensures found { IfOk result (λ options.
        FindsChecking (rows_of (found_of found.now)) (checking_of options)) }
    ensures usage { IsErrOf result Refusal.Usage → (values : Checking)
        → ¬ FindsChecking (rows_of (found_of found.now)) values }
{
    let files = texts_of(alloc, found, "files")?;
    let json = has_flag(found, "json");
    Ok(CheckOptions { files, json })
}

/// The options of `supervise`; a fault only where no program is given, or a limit has no number.
pub(crate) fn supervise_options<'a>(
    found: &ArgMatches<'a>,
) -> Result<SuperviseOptions<'a>, UsageFault>
    ensures found { IfOk result (λ options.
        FindsSupervision (rows_of (found_of found.now)) (supervision_of options)) }
    ensures usage { IfErr result (λ _. (values : Supervision)
        → ¬ FindsSupervision (rows_of (found_of found.now)) values) }
{
    let Some(program) = text_of(found, "program") else {
        return Err(UsageFault);
    };
    let limits = limit_options(found)?;
    let (from, to) = (text_of(found, "from"), text_of(found, "to"));
    let (verbose, why) = (has_flag(found, "verbose"), has_flag(found, "why"));
    Ok(SuperviseOptions {
        program,
        from,
        to,
        limits,
        verbose,
        why,
    })
}

/// The options of `adopt`, unless a limit has no number.
pub(crate) fn adopt_options<'a>(found: &ArgMatches<'a>) -> Result<AdoptOptions<'a>, UsageFault>
    ensures found { IfOk result (λ options.
        FindsAdoption (rows_of (found_of found.now)) (adoption_of options)) }
    ensures usage { IfErr result (λ _. (values : Adoption)
        → ¬ FindsAdoption (rows_of (found_of found.now)) values) }
{
    let limits = limit_options(found)?;
    let program = text_of(found, "program");
    Ok(AdoptOptions { program, limits })
}

/// The limits, unless one has no number.
fn limit_options(found: &ArgMatches<'_>) -> Result<LimitOptions, UsageFault>
    ensures found { IfOk result (λ options.
        FindsLimiting (rows_of (found_of found.now)) (limiting_of options)) }
    ensures usage { IfErr result (λ _. (values : Limiting)
        → ¬ FindsLimiting (rows_of (found_of found.now)) values) }
{
    let answer_within = number_of(found, "answer-within")?;
    let ready_within = number_of(found, "ready-within")?;
    Ok(LimitOptions {
        answer_within,
        ready_within,
    })
}

/// What `explain` is asked.
pub(crate) fn explain_options<'a>(found: &ArgMatches<'a>) -> ExplainOptions<'a>
    ensures { option_map (λ text. text.now) result.code ≡ first_of (codes "code") (rows_of (found_of found.now)) }
{
    ExplainOptions {
        code: text_of(found, "code"),
    }
}

fn start_options<'a>(found: &ArgMatches<'a>) -> Result<StartOptions<'a>, UsageFault>
    ensures found { IfOk result (λ options.
        FindsStart (rows_of (found_of found.now)) (start_of options)) }
    ensures usage { IfErr result (λ _. (values : Start)
        → ¬ FindsStart (rows_of (found_of found.now)) values) }
{
    let workers = number_of(found, "workers")?;
    Ok(StartOptions {
        from: text_of(found, "from"),
        to: text_of(found, "to"),
        workers,
        bare: has_flag(found, "bare"),
        why: has_flag(found, "why"),
        json: has_flag(found, "json"),
    })
}

/// The value of an option or a word, if it is given.
fn text_of<'a>(found: &ArgMatches<'a>, id: &str) -> Option<&'a str>
    ensures { option_map (λ text. text.now) result ≡ first_of id.now (rows_of (found_of found.now)) }
{
    found.get_str(id)
}

/// The texts of an argument that takes several; `Usage` where it is not given.
fn texts_of<'a>(alloc: Global, found: &ArgMatches<'a>, id: &str) -> Result<Vec<&'a str>, Refusal>
    ensures found { IfOk result (λ given. all_of id.now (rows_of (found_of found.now)) ≡ Some (texts given.items)) }
    ensures usage { IsErrOf result Refusal.Usage → (values : List Text)
        → all_of id.now (rows_of (found_of found.now)) ≢ Some values }
{
    let Some(given) = found.get_strs(id) else {
        return Err(Refusal::Usage);
    };
    Ok(given.iter().copied().collect(alloc)?)
}

/// The texts of an argument that may be given, or not; none where it is not.
fn any_texts_of<'a>(
    alloc: Global,
    found: &ArgMatches<'a>,
    id: &str,
) -> Result<Vec<&'a str>, AllocError>
    ensures { IfOk result (λ given. texts given.items ≡ unwrap_or (all_of id.now (rows_of (found_of found.now))) []) }
{
    match found.get_strs(id) {
        Some(given) => Ok(given.iter().copied().collect(alloc)?),
        None => Ok(Vec::new(alloc)),
    }
}

/// Whether a flag is given, which `clap` keeps as the text of a `bool`.
fn has_flag(found: &ArgMatches<'_>, id: &str) -> bool
    ensures { result ≡ is_given (first_of id.now (rows_of (found_of found.now))) }
{
    match text_of(found, id) {
        Some(text) => text == "true",
        None => false,
    }
}

/// The value of an option that takes a number, if it is given.
fn number_of(found: &ArgMatches<'_>, id: &str) -> Result<Option<u32>, UsageFault>
    ensures found { IfOk result (IsNumber (first_of id.now (rows_of (found_of found.now)))) }
    ensures usage { IfErr result (λ _. (number : Option ℕ)
        → ¬ IsNumber (first_of id.now (rows_of (found_of found.now))) number) }
{
    match text_of(found, id) {
        None => Ok(None),
        Some(text) => match read_number(text.as_bytes()) {
            None => Err(UsageFault),
            number => Ok(number),
        },
    }
}
