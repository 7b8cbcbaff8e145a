//! The program over any reader and any two writers.
ghost use Rattle.std.specs.Prelude.{◌≡◌, ◌↔◌, ◌∷◌, [], map, None, Some, is_some, option_map, IsTrue, IfOk, IfErr, IfSome, OnOk, Ok};
ghost use Rattle.pattern_text.specs.TurnsText.{some_turns};
ghost use Rattle.pattern_text.specs.Courses.{course_of};
ghost use Rattle.pattern_text.specs.PatternsText.{patterns_of};
ghost use Rattle.transcript.specs.Reading.{blocks_of};
ghost use Rattle.std.specs.Io.KnownBytes.{Appends};
ghost use Rattle.faults.specs.Faults.{IsOfFile};
ghost use Rattle.faults.specs.declared.fault.Fault.TheVariants.{Usage};
ghost use Rattle.master_on_kernel.specs.Explorations.{HasOrders};
ghost use Rattle.prefork.specs.Asked.{asks_for_runs, AreDemandsOf, AreTurnsGiven, IsQuestion};
ghost use Rattle.prefork.specs.Input.{IsOfPatterns, IsOfBlocks};

use crate::checking::check;
use crate::exploration::{Listing, tell_findings, tell_orders};
use crate::setup::setup_of;
use crate::telling::{is_told_as_json, tell_as_json};
use command_line::{CertifyOptions, EnactOptions, ExploreOptions, PlanOptions, Request};
use control_words::Word;
use death_explorer::DeathCounts;
use explanations::{
    Evidence, explain, has_why, is_asked, tell, tell_program, tell_refusals, tell_usage,
};
use faults::Fault;
use json_text::{blocks_json, deaths_json, exploration_json, patterns_json, plan_json};
use kernel_model::{Section, Turns};
use master_on_kernel::{
    DeathTrials, DeathsExplored, Demands, Explored, Form, Outlook, Rehearsal, Start, Trials, begin,
    certify_all, certify_with_life, death_summary, line_instead, look_ahead, read_goals, rehearse,
    show_state, summary,
};
use master_programs::{Surroundings, adopt, child, supervise};
use order_explorer::{ChosenOrders, Totals};
use pattern_text::turns_in;
use std::alloc::{AllocError, Global};
use std::env::Env;
use std::io::{Read, Write};
use std::os::fd::AsRawFd;
use std::process::{OpenProcess, Processes};
use std::rt::Files;
use std::time::Clock;
use transcript::read_transcripts;
use vocabulary::Settings;
use word_runner::Block;

/// Standard input.
#[derive(Drop)]
struct Input<'a, I> {
    reader: &'a mut I,
    /// What was read of it.
    given: Vec<u8>,
}

/// Runs the program, and gives its exit status.
///
/// Faults are one line on standard error, and with `--json` one on standard output before it; blocks of words that were done
/// are written first. `number` is that of its own process.
pub fn run<R: AllocGlobal + Files + Processes + Clock + Env, I: Read, O: Write, E: Write>(
    rt: &R,
    around: &Surroundings,
    args: &[String],
    input: &mut I,
    output: &mut O,
    errors: &mut E,
) -> u8
where
    <R::Started as OpenProcess>::Stdout: AsRawFd,
    <R::Started as OpenProcess>::Stdin: AsRawFd,
{
    let request = match command_line::read(rt.alloc(), args) {
        Ok(request) => request,
        Err(refusal) => {
            let fault = Fault::from(refusal);
            let status = fault.tell(errors);
            if around.explains || has_why(args) {
                tell_usage(rt.alloc(), args, &fault, errors);
            }
            return status;
        }
    };
    let mut input = Input {
        reader: input,
        given: Vec::new(rt.alloc()),
    };
    match answer(rt, around, &request, &mut input, output, errors) {
        Ok(status) => status,
        Err(fault) => {
            if is_told_as_json(&request, &fault) {
                // (where that can't be written, the line says it)
                let _ = tell_as_json(rt.alloc(), &fault, output);
            }
            let status = fault.tell(errors);
            if around.explains || is_asked(&request) {
                tell_more(rt, &request, input.given.as_slice(), &fault, errors);
            }
            status
        }
    }
}

/// Says more of a fault, for people.
#[inline(never)]
fn tell_more<R: AllocGlobal + Files, E: Write>(
    rt: &R,
    request: &Request<'_>,
    given: &[u8],
    fault: &Fault,
    errors: &mut E,
) {
    let found = match (request, fault) {
        (Request::Certify(options), Fault::Certify(number, mismatch)) => {
            let setup = setup_of(&options.start);
            let goals = options.goals.as_slice();
            line_instead(rt, &setup, goals, options.held, given, (*number, mismatch))
        }
        _ => Ok(None),
    };
    let instead = match &found {
        Ok(Some(line)) => Some(line.as_slice()),
        _ => None,
    };
    tell(rt, request, &evidence_of(given, instead), fault, errors);
}

/// What is known beside a fault.
fn evidence_of<'a>(given: &'a [u8], instead: Option<&'a [u8]>) -> Evidence<'a> {
    Evidence { given, instead }
}

/// Answers a request. What is read of standard input is kept.
///
/// No subcommand is inlined here, nor what tells of faults above: settings have 8 KB each, so that the frames of all of
/// them would take 0.15 MB of each run.
fn answer<R: AllocGlobal + Files + Processes + Clock + Env, I: Read, O: Write, E: Write>(
    rt: &R,
    around: &Surroundings,
    request: &Request<'_>,
    input: &mut Input<'_, I>,
    output: &mut O,
    errors: &mut E,
) -> Result<u8, Fault>
where
    <R::Started as OpenProcess>::Stdout: AsRawFd,
    <R::Started as OpenProcess>::Stdin: AsRawFd,
{
    match request {
        Request::Enact(options) => enact(rt, around, options, input, output, errors),
        Request::Plan(options) => plan(rt, around, options, output, errors),
        Request::Explore(options) => explore(rt, around, options, output, errors),
        Request::Certify(options) => certify(rt, around, options, input, output, errors),
        Request::Check(options) => check(rt, options, output),
        Request::Supervise(options) => {
            if around.explains || options.why {
                tell_program(rt, options, errors);
            }
            supervise(rt, around, options, &mut *input.reader, output, errors)
        }
        Request::Adopt(options) => adopt(rt, around.number, options, &mut *input.reader, output),
        Request::Child => Ok(child(&mut *input.reader, output)),
        Request::Explain(options) => {
            let text = explain(rt.alloc(), options.code)?;
            write(output, text.as_slice())?;
            Ok(0)
        }
        Request::Show(text) => {
            write(output, text.as_bytes())?;
            Ok(0)
        }
    }
}

/// One write of a whole text, so that a reader never sees half of it unless the write fails.
pub fn write<O: Write>(output: &mut O, text: &[u8]) -> Result<(), Fault>
    ensures ok { OnOk result (Appends (O.contents output.old) (O.contents output.new) text.now) }
    ensures err { IfErr result IsOfFile }
{
    output.write_all(text)?;
    output.flush()?;
    Ok(())
}

/// Says at a terminal what is waited for.
fn ask_for<E: Write>(around: &Surroundings, texts: &str, errors: &mut E) {
    if around.asks {
        let _ = writeln!(errors, "prefork: enter {texts}; Ctrl-D ends them");
    }
}

/// `enact`: carries the words out on a modelled kernel in the sections of standard input, the
/// i-th word in the i-th section, and writes a block for each, and the state last where it is
/// asked for. Where memory is refused, the blocks of the words before are written, as JSON too; where there is none left
/// to write them as JSON, nothing is.
#[inline(never)]
fn enact<R: AllocGlobal + Files, I: Read, O: Write, E: Write>(
    rt: &R,
    around: &Surroundings,
    options: &EnactOptions<'_>,
    input: &mut Input<'_, I>,
    output: &mut O,
    errors: &mut E,
) -> Result<u8, Fault> {
    let alloc = rt.alloc();
    let mut script = script_of(rt, around, options, input, errors)?;
    let mut text = Vec::new(alloc);
    let Script {
        rehearsal,
        words,
        sections,
    } = &mut script;
    let done = rehearse(alloc, rehearsal, words, sections, &mut text);
    let shown = match done {
        Ok(_) => show_state(rehearsal, options.state, &mut text),
        Err(_) => Ok(()),
    };
    write_blocks(alloc, options.start.json, text.as_slice(), output)?;
    shown?;
    let status = done?;
    if around.explains || options.start.why {
        tell_refusals(text.as_slice(), errors);
    }
    Ok(status)
}

/// What `enact` carries out: a master that starts, and words with a section for each.
#[derive(Drop)]
struct Script {
    rehearsal: Rehearsal,
    words: Vec<Word>,
    sections: Vec<Section>,
}

/// The words of the command line, the start of its master, and the sections of standard input, read in this order.
fn script_of<R: AllocGlobal + Files, I: Read, E: Write>(
    rt: &R,
    around: &Surroundings,
    options: &EnactOptions<'_>,
    input: &mut Input<'_, I>,
    errors: &mut E,
) -> Result<Script, Fault> {
    let alloc = rt.alloc();
    let words = read_words(alloc, &options.words)?;
    let rehearsal = begin(rt, &setup_of(&options.start), options.held)?;
    ask_for(around, "patterns, lines such as '3 fail again'", errors);
    let sections = read_patterns(alloc, &mut *input.reader, &mut input.given)?;
    Ok(Script {
        rehearsal,
        words,
        sections,
    })
}

/// Writes blocks and a state as they are, or as JSON.
fn write_blocks<O: Write>(
    alloc: Global,
    json: bool,
    text: &[u8],
    output: &mut O,
) -> Result<(), Fault> {
    if json {
        write(output, blocks_json(alloc, text)?.as_slice())
    } else {
        write(output, text)
    }
}

/// `certify`: compares the blocks of standard input with plans and kernel, and writes the patterns
/// that explain them, a section for each; then what holds of their life, where that is asked for.
#[inline(never)]
fn certify<R: AllocGlobal + Files, I: Read, O: Write, E: Write>(
    rt: &R,
    around: &Surroundings,
    options: &CertifyOptions<'_>,
    input: &mut Input<'_, I>,
    output: &mut O,
    errors: &mut E,
) -> Result<u8, Fault> {
    let alloc = rt.alloc();
    let mut rehearsal = begin(rt, &setup_of(&options.start), options.held)?;
    let goals = read_goals(rt, rehearsal.next, options.goals.as_slice())?;
    ask_for(around, "blocks, as enact prints them", errors);
    let blocks = read_blocks(alloc, &mut *input.reader, &mut input.given)?;
    let mut text = if options.life {
        certify_with_life(alloc, &mut rehearsal, goals.as_slice(), blocks.as_slice())?
    } else {
        certify_all(alloc, &mut rehearsal, goals.as_slice(), blocks.as_slice())?
    };
    if options.start.json {
        text = patterns_json(alloc, blocks.len(), text.as_slice())?;
    }
    write(output, text.as_slice())?;
    if around.explains {
        let _ = match blocks.len() {
            1 => writeln!(errors, "prefork: accepted 1 block"),
            number => writeln!(errors, "prefork: accepted {number} blocks"),
        };
    }
    Ok(0)
}

/// `plan`: writes what a word would do.
#[inline(never)]
fn plan<R: AllocGlobal + Files, O: Write, E: Write>(
    rt: &R,
    around: &Surroundings,
    options: &PlanOptions<'_>,
    output: &mut O,
    errors: &mut E,
) -> Result<u8, Fault> {
    let alloc = rt.alloc();
    let word = control_words::read(options.word.as_bytes()).map_err(|refusal| Fault::Word(
        1, refusal,
    ))?;
    let start = Start::read(rt, &setup_of(&options.start))?;
    if options.dot && options.start.json {
        return Err(Fault::Usage);
    }
    let form = if options.dot {
        Form::Picture
    } else {
        Form::Text
    };
    let outlook = look_ahead(alloc, &start, word, form)?;
    if options.start.json {
        write(
            output,
            plan_json(alloc, outlook.text.as_slice())?.as_slice(),
        )?;
    } else {
        write(output, outlook.text.as_slice())?;
    }
    if around.explains || options.start.why {
        tell_refusals(outlook.text.as_slice(), errors);
    }
    Ok(outlook.status)
}

/// `explore`: writes how a word ends under each event that can matter.
#[inline(never)]
fn explore<R: AllocGlobal + Files, O: Write, E: Write>(
    rt: &R,
    around: &Surroundings,
    options: &ExploreOptions<'_>,
    output: &mut O,
    errors: &mut E,
) -> Result<u8, Fault> {
    let alloc = rt.alloc();
    if options.list && options.start.json {
        return Err(Fault::Usage);
    }
    let question = question_of(alloc, options)?;
    if options.deaths {
        return explore_deaths(rt, around, question, options, output, errors);
    }
    let mut rehearsal = begin(rt, &setup_of(&options.start), options.held)?;
    let findings = find(alloc, &mut rehearsal, question, options, output, errors)?;
    let text = findings.outlook.text.as_slice();
    if options.start.json {
        write(output, exploration_json(alloc, text)?.as_slice())?;
    } else {
        write(output, text)?;
    }
    if around.explains || options.start.why {
        tell_findings(&findings.explored, &findings.totals, errors);
        tell_refusals(text, errors);
    }
    Ok(findings.outlook.status)
}

/// `explore --deaths`: writes what a start comes to after each death of the word's masters.
#[inline(never)]
fn explore_deaths<R: AllocGlobal + Files, O: Write, E: Write>(
    rt: &R,
    around: &Surroundings,
    question: Question,
    options: &ExploreOptions<'_>,
    output: &mut O,
    errors: &mut E,
) -> Result<u8, Fault> {
    let alloc = rt.alloc();
    if asks_for_runs(options) {
        return Err(Fault::Usage);
    }
    let setup = setup_of(&options.start);
    let settings = Start::read(rt, &setup)?.settings;
    let mut rehearsal = begin(rt, &setup, options.held)?;
    let outlook = find_deaths(alloc, &mut rehearsal, question, &settings, errors)?;
    let text = outlook.text.as_slice();
    if options.start.json {
        write(output, deaths_json(alloc, text)?.as_slice())?;
    } else {
        write(output, text)?;
    }
    if around.explains || options.start.why {
        tell_refusals(text, errors);
    }
    Ok(outlook.status)
}

/// Whether an option is given that says which runs with events there are, or how they are told: deaths have none.
fn asks_for_runs(options: &ExploreOptions<'_>) -> bool
    ensures { result ≡ asks_for_runs options.now }
{
    options.list || options.progress || options.limit.is_some() || options.events.is_some()
}

/// Counts the deaths of the word's masters, and sums up.
fn find_deaths<E: Write>(
    alloc: Global,
    rehearsal: &mut Rehearsal,
    question: Question,
    settings: &Settings,
    errors: &mut E,
) -> Result<Outlook, Fault> {
    let Question {
        word,
        turns,
        pairs,
        demands,
    } = question;
    let chosen = orders_of(alloc, rehearsal, turns, word, pairs, errors)?;
    let orders = chosen.lists.as_slice();
    let mut counts = DeathCounts::new();
    let trials = DeathTrials { orders, settings };
    let explored: DeathsExplored = rehearsal.explore_deaths(alloc, word, &trials, &mut counts)?;
    Ok(death_summary(alloc, &explored, orders, &counts, &demands)?)
}

/// What `explore` is asked: a word, by which turns or by all orders of them, under which events, and what is demanded of
/// the runs.
#[derive(Drop)]
struct Question {
    word: Word,
    turns: Option<Turns>,
    pairs: bool,
    demands: Demands,
}

/// The question of the command line. What is demanded comes before the events, these before the word, and the turns last.
fn question_of(alloc: Global, options: &ExploreOptions<'_>) -> Result<Question, Fault>
    ensures { IfOk result (IsQuestion options.now) }
{
    let demands = demands_of(options)?;
    let pairs = asks_for_pairs(options.events)?;
    let word = control_words::read(options.word.as_bytes()).map_err(|refusal| Fault::Word(
        1, refusal,
    ))?;
    let turns = turns_given(alloc, options.turns)?;
    Ok(Question {
        word,
        turns,
        pairs,
        demands,
    })
}

/// What was found: of the runs, in numbers, and as it is written.
#[derive(Drop)]
struct Answered {
    explored: Explored,
    totals: Totals,
    outlook: Outlook,
}

/// Explores the word, lists its runs where that is asked for, and sums up.
fn find<O: Write, E: Write>(
    alloc: Global,
    rehearsal: &mut Rehearsal,
    question: Question,
    options: &ExploreOptions<'_>,
    output: &mut O,
    errors: &mut E,
) -> Result<Answered, Fault> {
    let Question {
        word,
        turns,
        pairs,
        demands,
    } = question;
    let chosen = orders_of(alloc, rehearsal, turns, word, pairs, errors)?;
    let orders = chosen.lists.as_slice();
    let trials = Trials { orders, pairs };
    let mut totals = Totals::new();
    let mut listing = Listing::new(alloc, output, errors, options, orders);
    let explored = rehearsal.explore(alloc, word, &trials, &mut totals, &mut listing)?;
    listing.finish()?;
    let outlook = summary(alloc, &explored, orders, &totals, &demands)?;
    Ok(Answered {
        explored,
        totals,
        outlook,
    })
}

/// By which orders a word is explored: the one of these turns, or all, whose number is told.
fn orders_of<E: Write>(
    alloc: Global,
    rehearsal: &Rehearsal,
    turns: Option<Turns>,
    word: Word,
    pairs: bool,
    errors: &mut E,
) -> Result<ChosenOrders, Fault>
    ensures given { IfSome turns (λ given. IfOk result (λ chosen. chosen.lists.items ≡ given ∷ [])) }
    ensures all { turns ≡ None → IfOk result (HasOrders rehearsal.now word pairs) }
{
    match turns {
        Some(turns) => Ok(ChosenOrders::only(alloc, turns)?),
        None => {
            let chosen = rehearsal.orders(alloc, word, pairs)?;
            tell_orders(&chosen, errors);
            Ok(chosen)
        }
    }
}

/// The turns of the command line; none where it asks for all orders of them.
fn turns_given(alloc: Global, text: Option<&str>) -> Result<Option<Turns>, Fault>
    ensures { IfOk result (AreTurnsGiven (option_map (λ text. text.now) text.entry)) }
{
    match text {
        Some("all") => Ok(None),
        text => Ok(Some(turns_of(alloc, text)?)),
    }
}

/// Whether runs with two events are asked for; there are none with more.
fn asks_for_pairs(events: Option<u32>) -> Result<bool, Fault>
    ensures { IfOk result (λ pairs. IsTrue pairs ↔ (events ≡ Some 2)) }
{
    match events {
        None | Some(1) => Ok(false),
        Some(2) => Ok(true),
        Some(_) => Err(Fault::Usage),
    }
}

/// By whose turns runs go; where none are given, by none.
fn turns_of(alloc: Global, text: Option<&str>) -> Result<Turns, Fault>
    ensures none { text.entry ≡ None → IfOk result (λ turns. turns ≡ []) }
    ensures some { IfSome text.entry (λ letters. IfOk result (λ turns. some_turns letters.now ≡ Some turns)) }
{
    let Some(text) = text else {
        return Ok(Turns::new(alloc));
    };
    match turns_in(alloc, text.as_bytes())? {
        Some(turns) => Ok(turns),
        None => Err(Fault::Usage),
    }
}

/// What is demanded of the runs: only degraded ends can be forbidden, and only done ones required.
fn demands_of(options: &ExploreOptions<'_>) -> Result<Demands, Fault>
    ensures { IfOk result (AreDemandsOf options.now) }
{
    Ok(Demands {
        forbids_degraded: is_given(options.forbid, "degraded")?,
        requires_done: is_given(options.require, "done")?,
        least: options.least,
    })
}

/// Whether an option is given, which can only name this end.
fn is_given(option: Option<&str>, allowed: &str) -> Result<bool, Fault>
    ensures ok { IfOk result (λ given. given ≡ is_some option.entry) }
    ensures err { IfErr result (λ fault. fault ≡ Usage) }
{
    match option {
        None => Ok(false),
        Some(end) if end == allowed => Ok(true),
        Some(_) => Err(Fault::Usage),
    }
}

/// The control words of the command line; the first that is none is the fault.
fn read_words(alloc: Global, texts: &[&str]) -> Result<Vec<Word>, Fault> {
    let mut words = Vec::new(alloc);
    for (i, text) in texts.iter().enumerate() {
        let word = read_word(text, i + 1)?;
        words.push(word).map_err(AllocError::from)?;
    }
    Ok(words)
}

/// The control word of this number. (With it in the loop, the loop took a minute to prove.)
fn read_word(text: &str, number: usize) -> Result<Word, Fault> {
    control_words::read(text.as_bytes()).map_err(|refusal| Fault::Word(number, refusal))
}

/// All that is left of standard input.
fn read_all<I: Read>(alloc: Global, input: &mut I) -> Result<Vec<u8>, Fault>
    ensures ok { IfOk result (λ text. IfSome (I.remaining input.old) (λ bytes. text.items ≡ bytes)) }
    ensures err { IfErr result IsOfFile }
{
    let mut text = Vec::new(alloc);
    input.read_to_end(&mut text)?;
    Ok(text)
}

/// The sections of standard input, one for each word from the first on.
fn read_patterns<I: Read>(
    alloc: Global,
    input: &mut I,
    given: &mut Vec<u8>,
) -> Result<Vec<Section>, Fault>
    ensures ok { IfOk result (λ sections. IfSome (I.remaining input.old)
        (λ text. patterns_of text ≡ Ok (map course_of sections.items))) }
    ensures err { IfErr result (IsOfPatterns (I.remaining input.old)) }
{
    let text = read_all(alloc, input)?;
    let sections = pattern_text::read_patterns(alloc, text.as_slice());
    *given = text;
    Ok(sections?)
}

/// The blocks of standard input.
fn read_blocks<I: Read>(
    alloc: Global,
    input: &mut I,
    given: &mut Vec<u8>,
) -> Result<Vec<Block>, Fault>
    ensures ok { IfOk result (λ blocks. IfSome (I.remaining input.old) (λ text. blocks_of text ≡ Ok blocks.items)) }
    ensures err { IfErr result (IsOfBlocks (I.remaining input.old)) }
{
    let text = read_all(alloc, input)?;
    let blocks = read_transcripts(alloc, text.as_slice());
    *given = text;
    match blocks {
        Ok(blocks) => Ok(blocks),
        Err(refusal) => Err(Fault::of_transcript(refusal)),
    }
}
