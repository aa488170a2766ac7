// One way that a part of a look may be found.
ghost use Rattle.std.specs.Prelude.{◌≡◌, OnOk};
ghost use Rattle.outcome_lists.specs.Asking.{asked, seen_asked};
ghost use Rattle.outcome_lists.specs.Outcomes.{and_seen};

use crate::copies::{block_copy, file_copy, page_copy};
use explorer::reads_asked::{BlockRead, FileRead, PageRead, Question};
use nvm_base::Bytes;
use std::alloc::{AllocError, Global};

/// How it is answered, and the text of that.
#[derive(Drop)]
pub struct Choice {
    pub asks: Asks,
    pub text: Bytes,
}

/// A part, with its reply.
#[derive(Drop)]
pub enum Asks {
    Volume(PageRead),
    Blocks(BlockRead),
    File(FileRead),
}

impl Asks {
    /// A question asks it too.
    pub fn add_to(&self, alloc: Global, question: &mut Question) -> Result<(), AllocError>
        ensures { OnOk result (asked question.new ≡ and_seen (asked question.old) (seen_asked self.now)) }
    {
        match self {
            Asks::Volume(read) => question.volume.push(page_copy(alloc, read)?)?,
            Asks::Blocks(read) => question.blocks.push(block_copy(alloc, read)?)?,
            Asks::File(read) => question.files.push(file_copy(alloc, read)?)?,
        }
        Ok(())
    }
}
