//! The exit status of words that were carried out.
ghost use Rattle.std.specs.Prelude.{◌≡◌};
ghost use Rattle.word_runner.specs.Status.{body_status, graver, status_of, gravest};

use crate::{Block, Body};
use vocabulary::Outcome;

/// The status that one word asks for.
pub fn body_status(body: &Body) -> u8
    ensures { result ≡ body_status body.now }
{
    match body {
        Body::Nothing => 0,
        Body::Refused(_) => 1,
        Body::Ran(_, report) => match report.outcome {
            Outcome::Done => 0,
            Outcome::RolledBack => 3,
            Outcome::Degraded { .. } => 4,
            Outcome::Lost => 1,
        },
    }
}

/// The status that one block asks for.
pub fn status_of(block: &Block) -> u8
    ensures { result ≡ status_of block.now }
{
    match block {
        Block::Heard(_, body) => body_status(body),
        Block::Unread(_) => 1,
    }
}

/// A refused or lost word outweighs a degraded one, and that outweighs one that was rolled back.
pub fn graver(one: u8, other: u8) -> u8
    ensures { result ≡ graver one other }
{
    if one == 1 || other == 1 {
        1
    } else {
        one.max(other)
    }
}

/// The gravest status that one of several words asks for.
pub fn gravest(blocks: &[Block]) -> u8
    ensures { result ≡ gravest blocks.now }
{
    let mut status = 0;
    for block in blocks {
        status = graver(status, status_of(block));
    }
    status
}
