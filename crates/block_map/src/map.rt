ghost use Rattle.std.specs.Prelude.{◌≡◌, ◌<◌, IfErr, IfOk, None, OnOk, Some, length, map, slice_get, slice_set};
ghost use Rattle.word_tables.specs.Bounds.{IsValid};
ghost use Rattle.block_map.specs.Cause.{IsCause};
ghost use Rattle.block_map.specs.States.{IsBelow, IsMap, MayTake, state_of, word_of};
ghost use Rattle.block_map.specs.Wrong.{first_wrong_entry};

use crate::{BlockState, TableFault, state, table};
use std::alloc::{AllocError, Global};
use std::marker::Model;
use word_tables::Geometry;

/// Units beyond the blocks.
pub const EXTRA_UNITS: u64 = 64;

// What the highest word exceeds the number of blocks by: two words name no unit.
const EXTRA_WORDS: u64 = EXTRA_UNITS + 1;

/// Where each block is. Contracts see the state of each.
#[derive(Debug, Drop)]
pub struct BlockMap {
    states: Vec<BlockState>,
}

impl Model for BlockMap {
    ghost use Rattle.std.specs.Prelude.{List};
    ghost use Rattle.block_map.specs.declared.state.BlockState.{BlockState};
    ghost use Rattle.block_map.specs.States.{IsMap};

    ghost Value = { List BlockState };

    ghost view = { λ m. m.states.items };

    ghost invariant = { λ m. IsMap m.states.items };
}

impl BlockMap {
    /// The map that the words of the block map's area stand for.
    pub fn read(alloc: Global, geo: Geometry, words: &[u64]) -> Result<Self, TableFault>
        requires valid { IsValid geo }
        requires length { length words.now ≡ geo.blocks }
        ensures ok { IfOk result (λ found. found ≡ map state_of words.now) }
        ensures words { IfOk result (λ found. map word_of found ≡ words.now) }
        ensures right { OnOk result (first_wrong_entry words.now ≡ None) }
        ensures map { IfOk result IsMap }
        ensures err { IfErr result (IsCause words.now) }
    {
        table::check(alloc, words, geo.blocks + EXTRA_WORDS)?;
        let states = states_of(alloc, words)?;
        Ok(BlockMap { states })
    }

    pub fn get(&self, block: u64) -> BlockState
        requires { block < length self.now }
        ensures state { slice_get self.now block ≡ Some result }
        ensures map { IsMap self.now }
    {
        self.states[block as usize]
    }

    pub fn set(&mut self, block: u64, state: BlockState)
        requires block { block < length self.old }
        requires state { MayTake self.old block state }
        ensures states { self.new ≡ slice_set self.old block state }
        ensures map { IsMap self.new }
    {
        self.states[block as usize] = state;
    }

    /// The word that stands for a state.
    pub fn word(state: BlockState) -> u64
        requires { IsBelow 4160 state }
        ensures word { result ≡ word_of state }
        ensures inverse { state_of result ≡ state }
    {
        state::word_of(state)
    }
}

fn states_of(alloc: Global, words: &[u64]) -> Result<Vec<BlockState>, AllocError>
    ensures { IfOk result (λ states. states.items ≡ map state_of words.now) }
{
    words
        .iter()
        .map(|word| state::state_of(*word))
        .collect(alloc)
}
