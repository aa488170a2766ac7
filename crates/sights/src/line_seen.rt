// A line of the volume that a question looks at.
ghost use Rattle.std.specs.Prelude.{◌≡◌, ◌/◌, ◌<◌, ◌*◌, ◌^◌, if◌then◌else◌};
ghost use Rattle.nvm_model.specs.Numbered.{is_among};
ghost use Rattle.nvm_model.specs.Cell.{zero_cell};

use crate::addresses::physical_offset;
use crate::lines_fit::{is_among, line_fits};
use crate::unit::Unit;
use asked_reads::Question;
use line_histories::HeldLine;
use nvm_base::{LINE, PAGE_LINES};
use script_text::Command;
use std::alloc::AllocError;
use word_tables::Geometry;

/// The line of that number, with each value that its words may have.
#[derive(Drop)]
pub struct LineSeen {
    pub number: u64,
    pub line: HeldLine,
    pub ghost reach: { number < 2 ^ 32 },
}

impl Unit for LineSeen {
    ghost use Rattle.sights.specs.Units.{line_may_fit, line_once_done};

    ghost may_fit = { line_may_fit };

    ghost once_done = { line_once_done };

    ghost page_of = { λ seen. seen.number / 64 };

    fn fits(&self, question: &Question) -> bool {
        line_fits(&question.volume, self.number, &self.line)
    }

    fn change(&mut self, geometry: Geometry, command: &Command) -> Result<(), AllocError> {
        let n = self.number;
        match command {
            Command::VStore { offset, bytes } => self.line.put(n, *offset, bytes.as_slice())?,
            Command::VSync { offset, len } => self.line.persist(n, *offset, *len),
            Command::VPSync { address, len } => {
                if let Some(offset) = physical_offset(geometry, *address, *len) {
                    self.line.persist(n, offset, *len);
                }
            }
            Command::VDiscard { page, count } | Command::VDiscardIf { page, count } => {
                self.discard(*page, *count);
            }
            Command::PoisonVolume { offset } => {
                if n == *offset / LINE {
                    self.line.lose();
                }
            }
            Command::WeakenVolume { offset } => {
                if n == *offset / LINE {
                    self.line.weaken();
                }
            }
            Command::ClearVolume { offset } => {
                if n == *offset / LINE {
                    self.line.clear();
                }
            }
            Command::BRead { .. }
            | Command::BWrite { .. }
            | Command::BAtomic { .. }
            | Command::BMulti { .. }
            | Command::BDiscard { .. }
            | Command::BDiscardIf { .. }
            | Command::BExists { .. }
            | Command::BScar { .. }
            | Command::VLoad { .. }
            | Command::VRanges
            | Command::VExists { .. }
            | Command::Create { .. }
            | Command::Delete { .. }
            | Command::Rename { .. }
            | Command::Resize { .. }
            | Command::List
            | Command::FRead { .. }
            | Command::FWrite { .. }
            | Command::FAtomic { .. }
            | Command::FMulti { .. }
            | Command::FDiscard { .. }
            | Command::FSync { .. }
            | Command::Map { .. }
            | Command::Unmap { .. }
            | Command::Load { .. }
            | Command::Store { .. }
            | Command::Sync { .. }
            | Command::Flush { .. }
            | Command::FlushVerify { .. }
            | Command::DeepFlush { .. }
            | Command::NextEvent
            | Command::CheckFile { .. }
            | Command::PoisonBlock { .. }
            | Command::PoisonFile { .. }
            | Command::PoisonMeta { .. }
            | Command::WeakenFile { .. }
            | Command::ClearFile { .. }
            | Command::Cut
            | Command::CutIn { .. }
            | Command::FailIn { .. }
            | Command::Restart { .. }
            | Command::Recover
            | Command::Attr { .. }
            | Command::Evict { .. } => {}
        }
        Ok(())
    }

    fn duplicate(&self) -> Result<Self, AllocError> {
        Ok(LineSeen {
            number: self.number,
            line: self.line.duplicate()?,
        })
    }

    fn page(&self) -> u64 {
        self.number / PAGE_LINES
    }
}

impl LineSeen {
    // What its page's lines held is gone with the page.
    fn discard(&mut self, page: u64, count: u64)
        requires page { page < 2 ^ 32 }
        requires count { count < 2 ^ 32 }
        ensures number { self.new.number ≡ self.old.number }
        ensures line { self.new.line ≡ (if is_among (64 * page) (64 * count) self.old.number then zero_cell else self.old.line) }
    {
        if is_among(PAGE_LINES * page, PAGE_LINES * count, self.number) {
            self.line.reset();
        }
    }
}
