//! What a word came to.
ghost use Rattle.std.specs.Prelude.{◌≡◌, ◌+◌, ◌≤◌, ◌++◌, length};
ghost use Rattle.std.specs.String.{string_bytes};
ghost use Rattle.word_runner.specs.Codes.{stopped_code, unplanned_code};

use arrayvec::ArrayString;
use control_words::{Word, WordRefusal};
use plan_walk::Transcript;
use reload_planner::PlanRefusal;
use std::marker::Model;
use vocabulary::Report;
use worker_table::TableRefusal;

/// A refusal's code as it is printed: a capital letter with a number, and then, separated by
/// single spaces, what it is about: `W3`, `E4 1`, `E3 P2`.
///
/// Contracts see its bytes.
#[derive(Drop)]
pub struct CodeText {
    spelling: Spelling,
}

/// A code of this program stands in place. One that was read may be of any length.
#[derive(Drop)]
enum Spelling {
    Short(ArrayString<64>),
    Long(String),
}

impl Model for CodeText {
    ghost use Rattle.std.specs.Prelude.{List, ℕ};
    ghost use Rattle.word_runner.specs.Spellings.{spelled};

    ghost Value = { List ℕ };

    ghost view = { λ code. spelled code.spelling };
}

impl CodeText {
    /// A code, and what it is about. All codes of this program are shorter than 64 bytes.
    pub fn of(code: &str, about: &str) -> CodeText
        requires { length code.now + length about.now ≤ 64 }
        ensures { result ≡ code.now ++ about.now }
    {
        let mut text = ArrayString::new();
        text.push_str(code);
        text.push_str(about);
        CodeText {
            spelling: Spelling::Short(text),
        }
    }

    /// A code of any length, with what it is about.
    pub fn long(text: String) -> CodeText
        ensures { result ≡ string_bytes text }
    {
        CodeText {
            spelling: Spelling::Long(text),
        }
    }

    /// `V1`: the master has stopped, and there is no record.
    pub fn stopped() -> CodeText
        ensures { result ≡ stopped_code }
    {
        CodeText::of("V1", "")
    }

    /// `E3`: there is no plan, with the planner's own refusal.
    pub fn unplanned(refusal: PlanRefusal) -> CodeText
        ensures { result ≡ unplanned_code refusal }
    {
        CodeText::of("E3 ", refusal.code())
    }

    /// The text of the code.
    pub fn as_str(&self) -> &str
        ensures { result.now ≡ self.now }
    {
        match &self.spelling {
            Spelling::Short(text) => text.as_str(),
            Spelling::Long(text) => text.as_str(),
        }
    }
}

/// The code of a word's refusal.
impl From<WordRefusal> for CodeText {
    ghost use Rattle.std.specs.Prelude.{◌≡◌};
    ghost use Rattle.control_words.specs.Words.{refusal_code};

    ghost from_gives = { λ refusal code. code ≡ refusal_code refusal };

    fn from(refusal: WordRefusal) -> CodeText {
        CodeText::of(refusal.code(), "")
    }
}

/// The code of a beat's refusal.
impl From<TableRefusal> for CodeText {
    ghost use Rattle.std.specs.Prelude.{◌≡◌};
    ghost use Rattle.worker_table.specs.Codes.{table_code};

    ghost from_gives = { λ refusal code. code ≡ table_code refusal };

    fn from(refusal: TableRefusal) -> CodeText {
        CodeText::of(refusal.code(), "")
    }
}

/// What a word came to: nothing to do, a refusal that changed nothing, or a run.
#[derive(Drop)]
pub enum Body {
    Nothing,
    Refused(CodeText),
    Ran(Transcript, Report),
}

/// A line that was heard, and what it came to.
#[derive(Drop)]
pub enum Block {
    /// A word, and what it came to.
    Heard(Word, Body),
    /// A line that is no word: `W1` or `W2`.
    Unread(WordRefusal),
}
