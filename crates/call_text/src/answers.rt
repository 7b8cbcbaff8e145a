//! Texts of answers.
ghost use Rattle.std.specs.Prelude.{◌≡◌, ◌<◌, ◌≤◌, ◌++◌, length, find, IfOk};
ghost use Rattle.plain_text.specs.Kept.{kept};
ghost use Rattle.call_text.specs.CallText.{answer_word, answer_text};
ghost use Rattle.call_text.specs.Reads.{Reads};
ghost use Rattle.call_text.specs.Ranges.{IsAnswerTo};
ghost use Rattle.call_text.specs.AnswerReading.{listed, is_reply, plain_replies, plain_answer, plain_of, answer_about, answer_of, answer_to};

use crate::sets::{read_numbers, write_set};
use crate::words::reply_text;
use call_replies::{replies_to, reply_to};
use listener_set::Numbers;
use plain_text::{LINE_BYTES, Line, Sink, cut, number_within, write_number};
use vocabulary::{Answer, Call, Reply};

/// The first word of an answer.
fn answer_word(answer: &Answer) -> &'static str
    ensures { result.now ≡ answer_word answer.now }
{
    match answer {
        Answer::Counted(_) => "counted",
        _ => reply_text(reply_to(answer, &Numbers::none())),
    }
}

/// Puts an answer behind what was written, without a newline.
#[tactic(auto, using(plain_text::proofs::KeptTexts::kept_on))]
pub(crate) fn put_answer<S: Sink>(out: &mut S, answer: &Answer) -> Result<(), S::Refusal>
    ensures text { IfOk result (λ _. S.text out.new ≡ kept S.most (S.text out.old ++ answer_text answer.now)) }
    ensures short { IfOk result (λ _. length (answer_text answer.now) ≤ 3600) }
{
    out.put(answer_word(answer).as_bytes())?;
    match answer {
        Answer::Opened(descriptor) => {
            out.put(b" ")?;
            write_number(out, u64::from(*descriptor))
        }
        Answer::Counted(numbers) => {
            out.put(b" ")?;
            write_set(out, numbers)
        }
        _ => Ok(()),
    }
}

/// Makes a line of an answer, without a newline, for which it leaves room. What the line held is
/// lost.
pub fn write_answer(answer: &Answer, line: &mut Line)
    ensures text { line.new ≡ answer_text answer.now }
    ensures room { length line.new < LINE_BYTES }
{
    line.clear();
    match put_answer(line, answer) {
        Ok(()) => (),
    }
}

/// Whether a call can have this answer; each count is full here.
fn is_listed(call: &Call, answer: &Answer) -> bool
    ensures { result ≡ listed call.now answer.now }
{
    replies_to(call).contains(&reply_to(answer, &Numbers::none()))
}

/// The replies whose answers are one word.
const PLAIN: [Reply; 19] = [
    Reply::InUse,
    Reply::TooMany,
    Reply::Denied,
    Reply::NoMemory,
    Reply::Fine,
    Reply::Forked,
    Reply::Again,
    Reply::IsReady,
    Reply::Gone,
    Reply::Late,
    Reply::Spawned,
    Reply::NoImage,
    Reply::Adopted,
    Reply::Refused,
    Reply::IoFault,
    Reply::IsAlive,
    Reply::Go,
    Reply::Back,
    Reply::MasterGone,
];

/// The reply that a word tells. (A table of answers would be made anew at each call, in 7 KB; this one takes 19 bytes.)
fn plain_reply(text: &[u8]) -> Option<Reply>
    ensures { result ≡ find (is_reply text.now) plain_replies }
{
    PLAIN.iter().copied().find(|reply| is_reply(*reply, text))
}

fn is_reply(reply: Reply, text: &[u8]) -> bool
    ensures { result ≡ is_reply text.now reply }
{
    reply_text(reply).as_bytes() == text
}

/// The answer of one word that gives a reply.
fn plain_answer(reply: Reply) -> Option<Answer>
    ensures { result ≡ plain_answer reply }
{
    let answer = match reply {
        Reply::Opened | Reply::Full | Reply::Short => return None,
        Reply::InUse => Answer::InUse,
        Reply::TooMany => Answer::TooMany,
        Reply::Denied => Answer::Denied,
        Reply::NoMemory => Answer::NoMemory,
        Reply::Fine => Answer::Fine,
        Reply::Forked => Answer::Forked,
        Reply::Again => Answer::Again,
        Reply::IsReady => Answer::IsReady,
        Reply::Gone => Answer::Gone,
        Reply::Late => Answer::Late,
        Reply::Spawned => Answer::Spawned,
        Reply::NoImage => Answer::NoImage,
        Reply::Adopted => Answer::Adopted,
        Reply::Refused => Answer::Refused,
        Reply::IoFault => Answer::IoFault,
        Reply::IsAlive => Answer::IsAlive,
        Reply::Go => Answer::Go,
        Reply::Back => Answer::Back,
        Reply::MasterGone => Answer::MasterGone,
    };
    Some(answer)
}

/// An answer of one word.
fn read_plain(text: &[u8]) -> Option<Answer>
    ensures { result ≡ plain_of text.now }
{
    match plain_reply(text) {
        Some(reply) => plain_answer(reply),
        None => None,
    }
}

/// An answer of two words.
fn read_about(word: &[u8], rest: &[u8]) -> Option<Answer>
    ensures { result ≡ answer_about word.now rest.now }
{
    if word == b"opened".as_slice() {
        let descriptor = number_within(rest, 3, 66)?;
        return Some(Answer::Opened(descriptor));
    }
    if word == b"counted".as_slice() {
        let numbers = read_numbers(rest)?;
        return Some(Answer::Counted(numbers));
    }
    None
}

fn read_any(text: &[u8]) -> Option<Answer>
    ensures { result ≡ answer_of text.now }
{
    match cut(text, b' ') {
        Some((word, rest)) => read_about(word, rest),
        None => read_plain(text),
    }
}

fn read_listed(call: &Call, text: &[u8]) -> Option<Answer>
    ensures { result ≡ answer_to call.now text.now }
{
    let answer = read_any(text)?;
    if is_listed(call, &answer) {
        Some(answer)
    } else {
        None
    }
}

/// Reads an answer to a call as `write_answer` writes it, and no other text. It is one that the call
/// can have; a descriptor is from 3 to 66, and numbers of workers are below 1024. Any bytes may come.
pub fn read_answer(call: &Call, text: &[u8]) -> Option<Answer>
    ensures exact { result ≡ answer_to call.now text.now }
    ensures reads { Reads (IsAnswerTo call.now) answer_text text.now result }
{
    read_listed(call, text)
}
