//! Blocks as texts.
ghost use Rattle.std.specs.Prelude.{◌≡◌, ◌++◌, IfOk};
ghost use Rattle.transcript.specs.Block.{body_text, block_text};

use call_text::{write_entry, write_report};
use std::alloc::{AllocError, Global};
use word_runner::{Block, Body};

/// What a word came to, behind what was written: `nothing`, or `refused CODE`, or a line for each call, numbered from 1, and the
/// report's line. The only refusal is want of memory.
pub fn write_body(out: &mut Vec<u8>, body: &Body) -> Result<(), AllocError>
    ensures { IfOk result (λ _. out.new.items ≡ out.old.items ++ body_text body.now) }
{
    match body {
        Body::Nothing => out.extend_from_slice(b"nothing\n"),
        Body::Refused(code) => {
            out.extend_from_slice(b"refused ")?;
            out.extend_from_slice(code.as_str().as_bytes())?;
            out.extend_from_slice(b"\n")
        }
        Body::Ran(log, report) => {
            for place in 0..log.len() {
                write_entry(out, place as u64 + 1, &log.get(place))?;
            }
            write_report(out, report)?;
            out.extend_from_slice(b"\n")
        }
    }
}

/// The text of a block: the line `word W`, and then `nothing`, or `refused CODE`, or a line for each call, numbered from 1,
/// and the report's line; or the line `unread W1` or `unread W2`. The only refusal is want of memory.
pub fn write_transcript(alloc: Global, block: &Block) -> Result<Vec<u8>, AllocError>
    ensures { IfOk result (λ out. out.items ≡ block_text block.now) }
{
    let mut out = Vec::new(alloc);
    match block {
        Block::Heard(word, body) => {
            out.extend_from_slice(b"word ")?;
            word.write(&mut out)?;
            out.extend_from_slice(b"\n")?;
            write_body(&mut out, body)?;
        }
        Block::Unread(refusal) => {
            out.extend_from_slice(b"unread ")?;
            out.extend_from_slice(refusal.code().as_bytes())?;
            out.extend_from_slice(b"\n")?;
        }
    }
    Ok(out)
}
