//! `explain`: what codes, answers and outcomes mean.
ghost use Rattle.std.specs.Prelude.{◌≡◌, ◌++◌, ◌⊎◌, IfOk, IfErr, OnOk, IsTrue, is_some};
ghost use Rattle.explanations.specs.Pages.{meaning_line, page_text};
ghost use Rattle.faults.specs.declared.fault.Fault.TheVariants.{Code, Memory};

use crate::finding::find;
use code_explanations::{Explanation, answer_pages, fault_pages, word_pages};
use faults::Fault;
use std::alloc::{AllocError, Global};

/// The column at which meanings begin in the list of all.
const COLUMN: usize = 12;

/// What a code, an answer, an outcome, a word or a call means, and what to do about it: of a text such as `C5 0 A3` the
/// first word counts, in large or small letters. Without a text, a line for each but the words and calls.
pub fn explain(alloc: Global, code: Option<&str>) -> Result<Vec<u8>, Fault>
    ensures { IfErr result (λ fault. (fault ≡ Memory) ⊎ ((fault ≡ Code) × IsTrue (is_some code.entry))) }
{
    let Some(code) = code else {
        return Ok(list(alloc)?);
    };
    match find(code) {
        Some(found) => Ok(page(alloc, &found)?),
        None => Err(Fault::Code),
    }
}

/// A line for each.
fn list(alloc: Global) -> Result<Vec<u8>, AllocError> {
    let mut text = Vec::new(alloc);
    put_faults(&mut text)?;
    put_words(&mut text)?;
    put_answers(&mut text)?;
    Ok(text)
}

fn put_faults(text: &mut Vec<u8>) -> Result<(), AllocError> {
    put_lines(text, fault_pages())
}

fn put_words(text: &mut Vec<u8>) -> Result<(), AllocError> {
    put_lines(text, word_pages())
}

fn put_answers(text: &mut Vec<u8>) -> Result<(), AllocError> {
    put_lines(text, answer_pages())
}

fn put_lines(text: &mut Vec<u8>, explanations: &[Explanation]) -> Result<(), AllocError> {
    for explanation in explanations {
        text.extend_from_slice(explanation.code.as_bytes())?;
        text.resize(
            text.len() + COLUMN.saturating_sub(explanation.code.len()),
            b' ',
        )?;
        text.extend_from_slice(explanation.meaning.as_bytes())?;
        text.extend_from_slice(b"\n")?;
    }
    Ok(())
}

/// The text of one.
fn page(alloc: Global, explanation: &Explanation) -> Result<Vec<u8>, AllocError>
    ensures { IfOk result (λ text. text.items ≡ page_text explanation.now) }
{
    let mut text = Vec::new(alloc);
    put_meaning(&mut text, explanation)?;
    if !explanation.remedy.is_empty() {
        text.extend_from_slice(b"\n")?;
        text.extend_from_slice(explanation.remedy.as_bytes())?;
        text.extend_from_slice(b"\n")?;
    }
    Ok(text)
}

fn put_meaning(text: &mut Vec<u8>, explanation: &Explanation) -> Result<(), AllocError>
    ensures { OnOk result (text.new.items ≡ text.old.items ++ meaning_line explanation.now) }
{
    text.extend_from_slice(explanation.code.as_bytes())?;
    text.extend_from_slice(b": ")?;
    text.extend_from_slice(explanation.meaning.as_bytes())?;
    text.extend_from_slice(b"\n")
}
