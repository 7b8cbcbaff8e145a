//! Which explanation a text asks for.
use code_explanations::{
    Explanation, answer_pages, explanation_like, explanation_of, fault_pages, name_pages,
    word_pages,
};

/// What is known of a code, an answer, an outcome, a word or a call, by the first word of a text: as it is written, or
/// else in other letters.
pub fn find(text: &str) -> Option<Explanation> {
    let name = match text.split_once(' ') {
        Some((word, _)) => word,
        None => text,
    };
    match find_exactly(name) {
        Some(found) => Some(found),
        None => find_alike(name),
    }
}

fn find_exactly(name: &str) -> Option<Explanation> {
    match meaning_of(name) {
        Some(found) => Some(found),
        None => answer_or_name(name),
    }
}

/// What is known of a code, if it is one.
pub fn meaning_of(code: &str) -> Option<Explanation> {
    match explanation_of(fault_pages(), code) {
        Some(found) => Some(found),
        None => explanation_of(word_pages(), code),
    }
}

fn answer_or_name(name: &str) -> Option<Explanation> {
    match explanation_of(answer_pages(), name) {
        Some(found) => Some(found),
        None => explanation_of(name_pages(), name),
    }
}

fn find_alike(name: &str) -> Option<Explanation> {
    match code_alike(name) {
        Some(found) => Some(found),
        None => name_alike(name),
    }
}

fn code_alike(code: &str) -> Option<Explanation> {
    match explanation_like(fault_pages(), code) {
        Some(found) => Some(found),
        None => explanation_like(word_pages(), code),
    }
}

fn name_alike(name: &str) -> Option<Explanation> {
    match explanation_like(name_pages(), name) {
        Some(found) => Some(found),
        None => explanation_like(answer_pages(), name),
    }
}
