//! Words without a master or a configuration, the table of workers, and what is printed of refusals.
use crate::setup::with_two_workers;
use control_words::Word;
use listener_set::Numbers;
use plan_executor::{EnactRefusal, run_words};
use reload_planner::PlanRefusal;
use service_state::Record;
use std::alloc::Global;
use std::test::Fail;
use vocabulary::Settings;
use word_runner::{Block, Body, CodeText, Standing};
use worker_table::WorkerTable;

/// The body of a word's block, where no next settings are at hand.
fn body_of(alloc: Global, state: Option<Record>, word: Word) -> Result<Body, Fail> {
    let settings = Settings::plain();
    let mut standing = Standing {
        world: with_two_workers(alloc, &settings, 65_535)?,
        record: state,
        workers: WorkerTable::new(alloc)?,
    };
    let mut blocks = Vec::new(alloc);
    run_words(alloc, &mut standing, &[word], &[], None, &mut blocks)?;
    match blocks.pop() {
        Some(Block::Heard(_, body)) => Ok(body),
        _ => Err(Fail::from("no block of a word")),
    }
}

/// Whether a word is refused with this code.
fn is_refused(
    alloc: Global,
    state: Option<Record>,
    word: Word,
    wanted: &str,
) -> Result<bool, Fail> {
    Ok(match body_of(alloc, state, word)? {
        Body::Refused(code) => code.as_str() == wanted,
        _ => false,
    })
}

#[test]
fn words_lack_a_master_or_a_configuration(rt: HostRuntime) -> Result<(), Fail> {
    let state = Record::start(&Settings::plain(), 2, &Numbers::below(2), 100);
    for word in [Word::Hup, Word::Usr2] {
        assert!(rt; is_refused(rt.alloc(), Some(state), word, "W4")?, "{word}");
        assert!(rt; is_refused(rt.alloc(), None, word, "V1")?, "{word}");
    }
    Ok(())
}

/// Whether a refusal prints this, and its code is the same.
fn is_printed(alloc: Global, refusal: EnactRefusal, text: &str) -> Result<bool, Fail> {
    let printed = format!(in alloc; "{refusal}")?;
    Ok(CodeText::from(refusal).as_str() == text && printed.as_str() == text)
}

#[test]
fn refusals_of_targets_are_printed_as_their_codes(rt: HostRuntime) -> Result<(), Fail> {
    for (refusal, text) in [
        (EnactRefusal::Memory, "E1"),
        (EnactRefusal::RecordDisagrees, "E2"),
        (EnactRefusal::Plan(PlanRefusal::TooLarge), "E3 P1"),
        (EnactRefusal::Plan(PlanRefusal::Unplanned), "E3 P2"),
        (EnactRefusal::Plan(PlanRefusal::NoGeneration), "E3 P3"),
        (EnactRefusal::Plan(PlanRefusal::Memory), "E3 out of memory"),
        (EnactRefusal::MasterNamed(4_294_967_295), "E4 4294967295"),
        (EnactRefusal::NoNumbers, "E5"),
    ] {
        assert!(rt; is_printed(rt.alloc(), refusal, text)?, "{text}");
    }
    Ok(())
}
