// What changes make of a block.
ghost use Rattle.std.specs.Prelude.{◌≡◌, length};
ghost use Rattle.block_sights.specs.Changes.{sight_changed};
ghost use Rattle.block_sights.specs.Sights.{zeros, sight_written, sight_written_ranges, lose_sight};
ghost use Rattle.block_sights.specs.Sights.Sight.{Whole};

use super::{HeldBlock, Unreadable};
use crate::BlockChange;
use crate::spans::{is_among, is_in_any, split};
use nvm_base::{BLOCK, Span};

impl HeldBlock {
    /// Block b after a change.
    pub fn apply(&mut self, b: u64, change: &BlockChange)
        ensures { self.new ≡ sight_changed change.now b self.old }
    {
        match change {
            BlockChange::Write { at, bytes } => self.write(b, *at, bytes),
            BlockChange::WriteRanges { ranges, bytes } => self.write_ranges(b, ranges, bytes),
            BlockChange::Discard { spans } => {
                if is_in_any(spans, b) {
                    self.discard();
                }
            }
            BlockChange::Scar { spans } => {
                if is_in_any(spans, b) {
                    self.why = Some(Unreadable::Scarred);
                }
            }
            BlockChange::Lose { block, line } => {
                if b == *block {
                    self.lose(*line);
                }
            }
        }
    }

    fn write_ranges(&mut self, b: u64, ranges: &[Span], bytes: &[u8])
        ensures { self.new ≡ sight_written_ranges ranges.now bytes.now b self.old }
    {
        let mut rest = bytes;
        for range in ranges {
            let (part, others) = split(rest, range.len);
            self.write(b, range.start, part);
            rest = others;
        }
    }

    fn write(&mut self, b: u64, at: u64, bytes: &[u8])
        ensures { self.new ≡ sight_written at bytes.now b self.old }
    {
        if is_among(at, bytes.len() as u64 / BLOCK, b) {
            let start = (BLOCK * (b - at)) as usize;
            self.hold(&bytes[start..start + BLOCK as usize]);
        }
    }

    fn hold(&mut self, bytes: &[u8])
        requires { length bytes.now ≡ 512 }
        ensures { self.new ≡ Whole bytes.now }
    {
        self.bytes.as_mut_slice().copy_from_slice(bytes);
        self.why = None;
    }

    fn discard(&mut self)
        ensures { self.new ≡ zeros }
    {
        self.bytes.as_mut_slice().fill(0);
        self.why = None;
    }

    fn lose(&mut self, line: u64)
        ensures { self.new ≡ lose_sight line self.old }
    {
        self.why = match self.why {
            None => Some(Unreadable::BadLine(line)),
            Some(Unreadable::Scarred) => Some(Unreadable::Scarred),
            Some(Unreadable::BadLine(lowest)) => Some(Unreadable::BadLine(line.min(lowest))),
        };
    }
}
