// An operation in full, and a list of blocks in full. The three functions call one another; this ends since a region holds fewer operations
// than the operation around it. An operation's uses are hashed after everything in its list of blocks is numbered, and before anything in
// its own regions is.
ghost use Rattle.std.specs.Prelude.{◌<◌};
ghost use Rattle.layout.specs.Columns.{columns};
ghost use Rattle.layout.specs.Reading.{op_count, block_count};
ghost use Rattle.fragments.specs.View.{options_in, store_read};
ghost use Rattle.fragments.specs.Order.{block_list, BlocksExist};
ghost use Rattle.fragments.specs.Numbered.{DefinitionsFit};
ghost use Rattle.fragments.specs.Parts.{full_steps, ops_in_full, listed_steps};
ghost use Rattle.hashing.specs.Walked.{Feeds};

use crate::names::hash_names;
use crate::passes::{hash_block_shells, hash_op_shells};
use crate::state::RunningHash;
use fragments::order::BlocksIn;
use fragments::types::Blocks;
use fragments::view::StoreView;
use fragments::words::WalkNumbers;
use layout::columns::{OP_REGION_END, OP_REGION_FIRST, number};
use layout::ops_in::OpsIn;

// Complete the hash of an operation by hashing its operands, successors and nested regions.
// Does not hash components already hashed by `hash_op_shell`.
#[cycle(hash_blocks_full_hash_op_full_hash_ops_full)]
pub fn hash_op_full(view: &StoreView, numbers: &mut WalkNumbers, n: usize, state: &mut RunningHash)
    requires n_bound { n < op_count (columns view.now.store.now) }
    requires definitions_fit { DefinitionsFit (store_read view.now) (full_steps (store_read view.now) n) numbers.old }
    ensures { Feeds (store_read view.now) (options_in view.now) (full_steps (store_read view.now) n) numbers.old numbers.new state.old.word state.new.word }
{
    hash_names(view.store, numbers, n, state);
    for r in number(view.store, OP_REGION_FIRST, n)..number(view.store, OP_REGION_END, n) {
        hash_blocks_full(view, numbers, Blocks::InRegion(r), state);
    }
}

// Hash a list of blocks, hashing the following components in order:
// 1. Every block's shell (attributes and arguments).
// 2. Every operation's shell (attributes, results etc), which doesn't depend on other things.
// 3. Every operation's operands, successors and nested regions.
//
// So any use of a block or value that is defined anywhere in the list is already numbered by the time it's hashed: forward references too.
#[cycle(hash_blocks_full_hash_op_full_hash_ops_full)]
pub fn hash_blocks_full(
    view: &StoreView,
    numbers: &mut WalkNumbers,
    blocks: Blocks,
    state: &mut RunningHash,
)
    requires blocks_exist { BlocksExist (columns view.now.store.now) blocks }
    requires definitions_fit { DefinitionsFit (store_read view.now) (listed_steps (store_read view.now) (block_list (store_read view.now) blocks)) numbers.old }
    ensures { Feeds (store_read view.now) (options_in view.now) (listed_steps (store_read view.now) (block_list (store_read view.now) blocks)) numbers.old numbers.new state.old.word state.new.word }
{
    hash_block_shells(view, numbers, blocks, state);
    hash_op_shells(view, numbers, blocks, state);
    for b in BlocksIn::new(view.store, blocks) {
        hash_ops_full(view, numbers, b, state);
    }
}

// Pass 3 of one block: its operations in full.
#[cycle(hash_blocks_full_hash_op_full_hash_ops_full)]
fn hash_ops_full(view: &StoreView, numbers: &mut WalkNumbers, b: usize, state: &mut RunningHash)
    requires b_bound { b < block_count (columns view.now.store.now) }
    requires definitions_fit { DefinitionsFit (store_read view.now) (ops_in_full (store_read view.now) b) numbers.old }
    ensures { Feeds (store_read view.now) (options_in view.now) (ops_in_full (store_read view.now) b) numbers.old numbers.new state.old.word state.new.word }
{
    for n in OpsIn::new(view.store, b) {
        hash_op_full(view, numbers, n, state);
    }
}
