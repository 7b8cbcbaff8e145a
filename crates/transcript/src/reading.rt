//! Blocks, read.
ghost use Rattle.std.specs.Prelude.{◌≡◌, ◌≢◌, List, [], map, Ok, Err, OnOk, IfOk, IfErr, IsErrOf, IsOk, option_map};
ghost use Rattle.transcript.specs.BlockLine.{seen as seen_line, IsLine};
ghost use Rattle.transcript.specs.Block.{AreBlocks, IsTextOf, block_read};
ghost use Rattle.transcript.specs.Reading.{fault_within, fault_at, call_here, known_after, last_count, with_entry, with_block, with_line, ran, begun, blocks_of};
ghost use Rattle.word_runner.specs.declared.block.Block.{Block as Done};

use crate::block_line::BlockLine;
use crate::codes::code_of;
use crate::entries::{numbered, read_entry};
use control_words::Word;
use lines_text::{TakesLines, TextRefusal, read_lines};
use listener_set::Numbers;
use plan_walk::Transcript;
use std::alloc::{AllocError, Global};
use vocabulary::{Answer, Entry, Report};
use word_runner::{Block, Body};

/// A block that has begun: its word, the calls so far, and the numbers of the last count among them.
#[derive(Drop)]
struct Current {
    word: Word,
    log: Transcript,
    ready: Numbers,
    ghost full: { log.room ≡ 0 },
    ghost counted: { ready ≡ last_count log.entries },
}

impl Current {
    ghost use Rattle.transcript.specs.Reader.{seen_current};

    /// Before its first call. The only refusal is want of memory.
    fn begin(alloc: Global, word: Word) -> Result<Self, AllocError>
        ensures { IfOk result (λ current. seen_current current ≡ record { word = word; made = [] }) }
    {
        Ok(Current {
            word,
            log: Transcript::with_room(alloc, 0)?,
            ready: Numbers::none(),
        })
    }

    /// Why a line with this number, other than a call, can't stand here.
    fn fault_at(&self, number: usize, line: &BlockLine<'_>) -> Option<TextRefusal>
        ensures { result ≡ fault_within number (seen_line line.now) (seen_current self.now) }
    {
        match line {
            BlockLine::Ended(_) => None,
            BlockLine::Nothing | BlockLine::Refused(_) if self.log.is_empty() => None,
            _ => Some(TextRefusal::Line(number)),
        }
    }

    /// Adds a call. The only refusal is want of memory.
    #[tactic(auto, using(crate::proofs::Counts::count_more))]
    fn add(&mut self, entry: &Entry) -> Result<(), AllocError>
        ensures { OnOk result (seen_current self.new ≡ with_entry entry.now (seen_current self.old)) }
    {
        self.log.add(entry)?;
        if let Answer::Counted(numbers) = &entry.answer {
            self.ready = *numbers;
        }
        Ok(())
    }
}

/// What was read of a text: the blocks, and the one that has begun.
#[derive(Drop)]
struct BlocksReader {
    done: Vec<Block>,
    current: Option<Current>,
}

impl BlocksReader {
    ghost use Rattle.transcript.specs.Reader.{seen};

    fn new(alloc: Global) -> Self
        ensures { seen result ≡ begun }
    {
        BlocksReader {
            done: Vec::new(alloc),
            current: None,
        }
    }

    /// Why a line with this number, other than a call, can't stand here.
    fn fault_at(&self, number: usize, line: &BlockLine<'_>) -> Option<TextRefusal>
        ensures { result ≡ fault_at number (seen_line line.now) (seen self.now).current }
    {
        match &self.current {
            Some(current) => current.fault_at(number, line),
            None => match line {
                BlockLine::Heard(_) | BlockLine::Unread(_) => None,
                _ => Some(TextRefusal::Line(number)),
            },
        }
    }

    /// Ends the block that has begun.
    fn close(&mut self, body: Body) -> Result<(), AllocError>
        ensures { OnOk result (seen self.new ≡ with_block (λ _. body) (seen self.old)) }
    {
        if let Some(current) = self.current.take() {
            self.done.push(Block::Heard(current.word, body))?;
        }
        Ok(())
    }

    /// Ends it by a report. Who was ready is what the last count said.
    fn report(&mut self, report: &Report) -> Result<(), AllocError>
        ensures { OnOk result (seen self.new ≡ with_block (ran report.now) (seen self.old)) }
    {
        let Some(current) = self.current.take() else {
            return Ok(());
        };
        let report = Report {
            outcome: report.outcome,
            cause: report.cause,
            note: report.note,
            ready: current.ready,
        };
        let body = Body::Ran(current.log, report);
        self.done.push(Block::Heard(current.word, body))?;
        Ok(())
    }

    /// Takes in a call that has the number `count` in its block, if it may stand here.
    fn take_call(&mut self, number: usize, count: u32, text: &[u8]) -> Result<(), TextRefusal>
        ensures ok { OnOk result (known_after (seen self.old) (call_here number (seen self.old) count text.now) ≡ Ok (seen self.new)) }
        ensures err { IfErr result (λ e. e ≢ TextRefusal.Memory → call_here number (seen self.old) count text.now ≡ Err e) }
        ensures memory { IsErrOf result TextRefusal.Memory → IsOk (call_here number (seen self.old) count text.now) }
    {
        let entry = read_entry(text);
        let entry = entry.as_ref().ok_or(TextRefusal::Line(number))?;
        match &mut self.current {
            None => Err(TextRefusal::Line(number)),
            Some(current) if count as usize != current.log.len() + 1 => {
                Err(TextRefusal::Order(number))
            }
            Some(current) => {
                current.add(entry)?;
                Ok(())
            }
        }
    }

    /// Adds a line other than a call. The only refusal is want of memory.
    fn add_line(&mut self, alloc: Global, line: &BlockLine<'_>) -> Result<(), AllocError>
        requires { IsLine (seen_line line.now) }
        ensures { OnOk result (seen self.new ≡ with_line (seen_line line.now) (seen self.old)) }
    {
        match line {
            BlockLine::Heard(word) => {
                self.current = Some(Current::begin(alloc, *word)?);
                Ok(())
            }
            BlockLine::Unread(refusal) => {
                self.done.push(Block::Unread(*refusal))?;
                Ok(())
            }
            BlockLine::Nothing => self.close(Body::Nothing),
            BlockLine::Refused(code) => {
                let code = code_of(alloc, code)?;
                self.close(Body::Refused(code))
            }
            BlockLine::Ended(report) => self.report(report),
        }
    }
}

impl TakesLines for BlocksReader {
    ghost use Rattle.std.specs.Prelude.{◌≡◌, ◌≢◌, List, Ok, Err, OnOk, IfOk, IfErr};
    ghost use Rattle.word_runner.specs.declared.block.Block.{Block};
    ghost use Rattle.transcript.specs.Reading.{Reading, line_here, taken, finished};
    ghost use Rattle.transcript.specs.Reader.{seen};

    type Value = Vec<Block>;

    ghost Reading = { Reading };

    ghost seen = { seen };

    ghost taken = { taken };

    ghost Meaning = { List Block };

    ghost meaning = { λ blocks. blocks.items };

    ghost finished = { finished };

    /// A line that can't stand here is refused as such, and never as want of memory.
    fn take(&mut self, alloc: Global, number: usize, line: &[u8]) -> Result<(), TextRefusal>
        ensures ok { OnOk result (taken number (seen self.old) line.now ≡ Ok (seen self.new)) }
        ensures err { IfErr result (λ e. e ≢ TextRefusal.Memory → taken number (seen self.old) line.now ≡ Err e) }
        ensures due { IfErr (line_here number (seen self.old) line.now) (λ e. result ≡ Err e) }
    {
        if let Some((count, call)) = numbered(line) {
            return self.take_call(number, count, call);
        }
        let Some(found) = BlockLine::read(line) else {
            return Err(TextRefusal::Line(number));
        };
        match self.fault_at(number, &found) {
            Some(refusal) => Err(refusal),
            None => Ok(self.add_line(alloc, &found)?),
        }
    }

    fn finish(self, number: usize) -> Result<Vec<Block>, TextRefusal>
        ensures ok { IfOk result (λ blocks. finished number (seen self) ≡ Ok blocks.items) }
        ensures err { IfErr result (λ e. finished number (seen self) ≡ Err e) }
    {
        match self.current {
            Some(_) => Err(TextRefusal::Line(number)),
            None => Ok(self.done),
        }
    }
}

/// Reads blocks one after another, each as `write_transcript` writes it, and no other text. The very
/// last newline may be missing, and the empty text has no block. Who was ready at a report is what
/// the last count of its block said; no log has room for more.
///
/// The first faulty line is named: X2 for a call with a wrong number, else X1; a text that ends within
/// a block is X1 with the number of the line that is missing. Any bytes may come.
#[tactic(auto, using(crate::proofs::Transcripts::blocks_found))]
pub fn read_transcripts(alloc: Global, text: &[u8]) -> Result<Vec<Block>, TextRefusal>
    ensures ok { IfOk result (λ blocks. blocks_of text.now ≡ Ok blocks.items) }
    ensures err { IfErr result (λ e. e ≢ TextRefusal.Memory → blocks_of text.now ≡ Err e) }

    // What is read has this text, and whatever has this text is read.
    ensures found { IfOk result (λ blocks. AreBlocks blocks.items × IsTextOf blocks.items text.now) }
    ensures only { (blocks : List Done) → AreBlocks blocks → IsTextOf blocks text.now → blocks_of text.now ≡ Ok (map block_read blocks) }
{
    read_lines(alloc, BlocksReader::new(alloc), text)
}
