//! What a line comes to.
ghost use Rattle.std.specs.Prelude.{◌≡◌, [], Ok};
ghost use Rattle.master_on_children.specs.Lines.{IsTold, IsShort};
ghost use Rattle.word_runner.specs.declared.block.Block.TheVariants.{Unread};

use control_words::WordRefusal;
use std::alloc::{AllocError, Global};
use word_runner::Block;

/// The blocks of a line, and whether there was memory for all of them.
#[derive(Drop)]
pub(crate) struct Said {
    pub(crate) blocks: Vec<Block>,
    pub(crate) done: Result<(), AllocError>,
}

impl Said {
    /// Nothing.
    pub(crate) fn nothing(alloc: Global) -> Said
        ensures { result.blocks.items ≡ [] }
    {
        Said {
            blocks: Vec::new(alloc),
            done: Ok(()),
        }
    }

    /// Want of memory.
    pub(crate) fn short(alloc: Global) -> Said
        ensures { IsShort result }
    {
        Said {
            blocks: Vec::new(alloc),
            done: Err(AllocError),
        }
    }

    /// One block.
    pub(crate) fn block(alloc: Global, block: Block) -> Said
        ensures { IsTold block result }
    {
        let mut blocks = Vec::new(alloc);
        let done = match blocks.push(block) {
            Ok(()) => Ok(()),
            Err(_) => Err(AllocError),
        };
        Said { blocks, done }
    }

    /// A line that is no word.
    pub(crate) fn unread(alloc: Global, refusal: WordRefusal) -> Said
        ensures { IsTold (Unread refusal) result }
    {
        Said::block(alloc, Block::Unread(refusal))
    }
}
