//! Lines of blocks, other than calls, read.
ghost use Rattle.std.specs.Prelude.{◌≡◌, IfSome, option_map};
ghost use Rattle.control_words.specs.Words.{IsWord};
ghost use Rattle.transcript.specs.BlockLine.{IsLine, seen};
ghost use Rattle.transcript.specs.LineReading.{word_of, unread_of, plain_of};

use crate::codes::is_code;
use call_text::read_report;
use control_words::{Word, WordRefusal};
use listener_set::Numbers;
use plain_text::cut;
use vocabulary::Report;

/// A line of a block, other than a call.
#[derive(Drop)]
pub(crate) enum BlockLine<'a> {
    /// `word W`: a block begins.
    Heard(Word),
    /// `unread W1` or `unread W2`: a block of its own.
    Unread(WordRefusal),
    /// `nothing`.
    Nothing,
    /// `refused CODE`.
    Refused(&'a [u8]),
    /// A report. It does not say who was ready: none is, here.
    Ended(Report),
}

fn read_word(text: &[u8]) -> Option<Word>
    ensures exact { result ≡ word_of text.now }
    ensures within { IfSome result IsWord }
{
    control_words::read(text).ok()
}

/// Why a line is no word.
fn read_unread(code: &[u8]) -> Option<WordRefusal>
    ensures { result ≡ unread_of code.now }
{
    if code == b"W1".as_slice() {
        return Some(WordRefusal::Unknown);
    }
    if code == b"W2".as_slice() {
        return Some(WordRefusal::BadNumber);
    }
    None
}

impl<'a> BlockLine<'a> {
    /// Reads a line without its newline, and no other text. It takes no memory. Any bytes may come.
    #[tactic(auto, using(crate::proofs::BlockLines::plain_within))]
    pub(crate) fn read(text: &'a [u8]) -> Option<BlockLine<'a>>
        ensures exact { option_map seen result ≡ plain_of text.now }
        ensures within { IfSome result (λ line. IsLine (seen line)) }
    {
        let Some((first, rest)) = cut(text, b' ') else {
            return if text == b"nothing".as_slice() {
                Some(BlockLine::Nothing)
            } else {
                None
            };
        };
        if first == b"word".as_slice() {
            Some(BlockLine::Heard(read_word(rest)?))
        } else if first == b"unread".as_slice() {
            Some(BlockLine::Unread(read_unread(rest)?))
        } else if first != b"refused".as_slice() {
            Some(BlockLine::Ended(read_report(text, &Numbers::none())?))
        } else if is_code(rest) {
            Some(BlockLine::Refused(rest))
        } else {
            None
        }
    }
}
