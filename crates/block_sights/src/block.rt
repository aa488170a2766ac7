// A block as reads see it.
ghost use Rattle.std.specs.Prelude.{◌≡◌, IfOk, MatchResult, length};
ghost use Rattle.block_sights.specs.Held.{sight_of_why};
ghost use Rattle.block_sights.specs.Sights.Sight.{Whole};

use nvm_base::BLOCK;
use std::alloc::{AllocError, Global};
use std::marker::Model;

mod changes;

/// Why a block can't be read.
#[derive(Clone, Copy, Debug, PartialEq, Eq)]
pub enum Unreadable {
    Scarred,
    /// The lowest of its bad lines.
    BadLine(u64),
}

/// What reads see of a block. The room for its bytes stays where it can't be read, so a change takes no memory.
#[derive(Debug, Drop)]
pub struct HeldBlock {
    bytes: Vec<u8>,
    why: Option<Unreadable>,
}

impl Model for HeldBlock {
    ghost use Rattle.std.specs.Prelude.{◌≡◌};
    ghost use Rattle.std.specs.Vec.{vec_len};
    ghost use Rattle.block_sights.specs.Sights.{Sight};

    ghost Value = { Sight };

    ghost use Rattle.block_sights.specs.Held.{sight_of};

    ghost view = { λ block. sight_of block.bytes.items block.why };

    ghost invariant = { λ block. vec_len block.bytes ≡ 512 };
}

impl HeldBlock {
    /// A block of these bytes.
    pub fn of_bytes(alloc: Global, bytes: &[u8]) -> Result<Self, AllocError>
        requires { length bytes.now ≡ 512 }
        ensures { IfOk result (λ block. block ≡ Whole bytes.now) }
    {
        let bytes = bytes.to_vec(alloc)?;
        Ok(HeldBlock { bytes, why: None })
    }

    /// A block that can't be read.
    pub fn unreadable(alloc: Global, why: Unreadable) -> Result<Self, AllocError>
        ensures { IfOk result (λ block. block ≡ sight_of_why why) }
    {
        let bytes = vec![in alloc; 0u8; BLOCK as usize]?;
        Ok(HeldBlock {
            bytes,
            why: Some(why),
        })
    }

    /// Another block of which reads see the same.
    pub fn duplicate(&self) -> Result<Self, AllocError>
        ensures { IfOk result (λ block. block ≡ self.now) }
    {
        let bytes = self.bytes.clone()?;
        Ok(HeldBlock {
            bytes,
            why: self.why,
        })
    }

    /// Its bytes, or why they can't be read.
    pub fn read(&self) -> Result<&[u8], Unreadable>
        ensures seen { MatchResult result (λ bytes. self.now ≡ Whole bytes.now) (λ why. self.now ≡ sight_of_why why) }
        ensures size { IfOk result (λ bytes. length bytes.now ≡ 512) }
    {
        match self.why {
            None => Ok(self.bytes.as_slice()),
            Some(why) => Err(why),
        }
    }
}
