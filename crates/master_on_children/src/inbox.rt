//! The lines that are typed to a master.
ghost use Rattle.std.specs.Prelude.{◌≡◌, ◌⊎◌, [], None, IfSome};
ghost use Rattle.std.specs.Io.KnownBytes.{Keeps};
ghost use Rattle.vocabulary.specs.declared.calls.Answer.TheVariants.{Go as GoesOn, Back as GoesBack};
ghost use Rattle.child_family.specs.Told.{heard_of};
ghost use Rattle.master_on_children.specs.Typed.{typed};
ghost use Rattle.master_on_children.specs.Questions.{reply_to};
ghost use Rattle.master_on_children.specs.Inbox.{unread, ReadsMore, IsNextLine, IsAnswered};

use crate::SupervisorFault;
use crate::waiting::{MOST_WAITING, Waiting};
use child_family::Heard;
use child_processes::LineReader;
use control_words::{Word, WordRefusal};
use plain_text::Line;
use std::io::Read;
use vocabulary::Answer;

/// The lines of an input: those that wait, and those that are still to be read.
#[derive(Drop)]
pub struct Inbox<I: Read + Drop> {
    lines: LineReader<I>,
    /// What was read while a question was asked, and did not answer it.
    waiting: Waiting,
    /// How the input ended, once it has. Nothing is read of it then.
    ended: Option<Result<(), SupervisorFault>>,
}

impl<I: Read + Drop> Inbox<I> {
    /// The lines of an input, of which none was read yet.
    pub(crate) fn new(input: I) -> Inbox<I>
        ensures waiting { result.waiting ≡ [] }
        ensures open { result.ended ≡ None }
        ensures unread { Keeps (I.remaining input) (unread I.remaining result) }
    {
        Inbox {
            lines: LineReader::new(input),
            waiting: Waiting::none(),
            ended: None,
        }
    }

    /// The next line to act on: the first that waits, or else one more of the input. At its end there is none.
    pub(crate) fn next_line(&mut self) -> Result<Option<Result<Word, WordRefusal>>, SupervisorFault>
        ensures { IsNextLine I.remaining self.old result self.new }
    {
        match self.waiting.take_first() {
            Some(line) => Ok(Some(line)),
            None => self.read(),
        }
    }

    /// Answers a question of a plan. The next `WINCH` or `QUIT` lets it go on; the next `HUP`, the end of the input or a
    /// read that fails has it go back. Any other line waits for its turn; once 64 wait, the answer is to go back, and
    /// nothing more is read.
    pub(crate) fn answer(&mut self) -> Answer
        ensures answered { IsAnswered I.remaining self.old result self.new }
        ensures one { (result ≡ GoesOn) ⊎ (result ≡ GoesBack) }
    {
        for _ in self.waiting.len()..MOST_WAITING {
            let line = match self.read() {
                Ok(Some(line)) => line,
                Ok(None) => return Answer::Back,
                Err(_) => return Answer::Back,
            };
            if let Some(answer) = reply_to(line) {
                return answer;
            }
            self.waiting.push(line);
        }
        Answer::Back
    }

    /// One more line of the input. Once it has ended or failed, that is what each further one comes to.
    fn read(&mut self) -> Result<Option<Result<Word, WordRefusal>>, SupervisorFault>
        ensures { ReadsMore I.remaining self.old.ended self.old result self.new }
    {
        match self.ended {
            Some(Ok(())) => return Ok(None),
            Some(Err(fault)) => return Err(fault),
            None => {}
        }
        let mut line = Line::new();
        match self.lines.next_line(&mut line) {
            Ok(heard) => match line_read(heard, line.bytes()) {
                Some(line) => Ok(Some(line)),
                None => {
                    self.ended = Some(Ok(()));
                    Ok(None)
                }
            },
            Err(error) => {
                let fault = SupervisorFault::from(error);
                self.ended = Some(Err(fault));
                Err(fault)
            }
        }
    }
}

/// What a line answers to a question, if it does.
fn reply_to(line: Result<Word, WordRefusal>) -> Option<Answer>
    ensures reply { result ≡ reply_to line }
    ensures one { IfSome result (λ a. (a ≡ GoesOn) ⊎ (a ≡ GoesBack)) }
{
    match line {
        Ok(Word::Winch | Word::Quit) => Some(Answer::Go),
        Ok(Word::Hup) => Some(Answer::Back),
        _ => None,
    }
}

/// What the input gave, as a line that is read: one of more than 4,096 bytes is no word. At the end there is none.
fn line_read(heard: Heard, line: &[u8]) -> Option<Result<Word, WordRefusal>>
    ensures { result ≡ typed (heard_of heard line.now) }
{
    match heard {
        Heard::Line => Some(control_words::read(line)),
        Heard::TooLong => Some(Err(WordRefusal::Unknown)),
        Heard::Ended => None,
    }
}
