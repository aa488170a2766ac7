// A block that a question looks at.
ghost use Rattle.std.specs.Prelude.{◌≡◌, ◌<◌, ◌^◌};
ghost use Rattle.block_sights.specs.Changes.{sight_changed};

use crate::blocks_fit::block_fits;
use crate::unit::Unit;
use asked_reads::Question;
use block_sights::{BlockChange, HeldBlock};
use nvm_base::Span;
use script_text::Command;
use std::alloc::AllocError;
use word_tables::Geometry;

/// The block of that number, as reads see it.
#[derive(Drop)]
pub struct BlockSeen {
    pub number: u64,
    pub block: HeldBlock,
    pub ghost reach: { number < 2 ^ 32 },
}

impl Unit for BlockSeen {
    ghost use Rattle.sights.specs.Units.{block_may_fit, block_once_done};

    ghost may_fit = { block_may_fit };

    ghost once_done = { block_once_done };

    ghost page_of = { λ seen. seen.number };

    fn fits(&self, question: &Question) -> bool {
        block_fits(&question.blocks, self.number, &self.block)
    }

    fn change(&mut self, _geometry: Geometry, command: &Command) -> Result<(), AllocError> {
        match command {
            Command::BWrite { block, bytes } | Command::BAtomic { block, bytes } => {
                self.apply(&BlockChange::Write {
                    at: *block,
                    bytes: bytes.as_slice(),
                });
            }
            Command::BMulti { ranges, bytes } => self.apply(&BlockChange::WriteRanges {
                ranges: ranges.as_slice(),
                bytes: bytes.as_slice(),
            }),
            Command::BDiscard { block, count } | Command::BDiscardIf { block, count } => {
                let span = Span {
                    start: *block,
                    len: *count,
                };
                self.apply(&BlockChange::Discard { spans: &[span] });
            }
            Command::BScar { ranges } => self.apply(&BlockChange::Scar {
                spans: ranges.as_slice(),
            }),
            Command::PoisonBlock { block, line } => self.apply(&BlockChange::Lose {
                block: *block,
                line: *line,
            }),
            Command::BRead { .. }
            | Command::BExists { .. }
            | Command::VLoad { .. }
            | Command::VStore { .. }
            | Command::VSync { .. }
            | Command::VRanges
            | Command::VPSync { .. }
            | Command::VDiscard { .. }
            | Command::VDiscardIf { .. }
            | Command::VExists { .. }
            | Command::Create { .. }
            | Command::Delete { .. }
            | Command::Rename { .. }
            | Command::Resize { .. }
            | Command::List
            | Command::FRead { .. }
            | Command::FWrite { .. }
            | Command::FAtomic { .. }
            | Command::FMulti { .. }
            | Command::FDiscard { .. }
            | Command::FSync { .. }
            | Command::Map { .. }
            | Command::Unmap { .. }
            | Command::Load { .. }
            | Command::Store { .. }
            | Command::Sync { .. }
            | Command::Flush { .. }
            | Command::FlushVerify { .. }
            | Command::DeepFlush { .. }
            | Command::NextEvent
            | Command::CheckFile { .. }
            | Command::PoisonVolume { .. }
            | Command::PoisonFile { .. }
            | Command::PoisonMeta { .. }
            | Command::WeakenFile { .. }
            | Command::WeakenVolume { .. }
            | Command::ClearFile { .. }
            | Command::ClearVolume { .. }
            | Command::Cut
            | Command::CutIn { .. }
            | Command::FailIn { .. }
            | Command::Restart { .. }
            | Command::Recover
            | Command::Attr { .. }
            | Command::Evict { .. } => {}
        }
        Ok(())
    }

    fn duplicate(&self) -> Result<Self, AllocError> {
        Ok(BlockSeen {
            number: self.number,
            block: self.block.duplicate()?,
        })
    }

    fn page(&self) -> u64 {
        self.number
    }
}

impl BlockSeen {
    fn apply(&mut self, change: &BlockChange)
        ensures { self.new ≡ record self.old { block = sight_changed change.now self.old.number self.old.block } }
    {
        self.block.apply(self.number, change);
    }
}
