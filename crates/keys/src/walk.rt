// An operation in full, and a list of blocks in full. The three functions call one another; this ends since a region holds fewer operations
// than the operation around it. An operation's uses are written after everything in its list of blocks is numbered, and before anything in
// its own regions is.
ghost use Rattle.std.specs.Prelude.{◌<◌};
ghost use Rattle.layout.specs.Columns.{columns};
ghost use Rattle.layout.specs.Reading.{op_count, block_count};
ghost use Rattle.fragments.specs.Order.{block_list, BlocksExist};
ghost use Rattle.fragments.specs.Numbered.{DefinitionsFit};
ghost use Rattle.fragments.specs.Parts.{full_steps, ops_in_full, listed_steps};
ghost use Rattle.fragments.specs.View.{store_read, options_in};
ghost use Rattle.keys.specs.Written.{place, Puts};

use crate::names::put_names;
use crate::passes::{put_block_shells, put_op_shells};
use fragments::order::BlocksIn;
use fragments::types::Blocks;
use fragments::view::StoreView;
use fragments::words::WalkNumbers;
use layout::columns::{OP_REGION_END, OP_REGION_FIRST, number};
use layout::ops_in::OpsIn;

// Complete an operation by its operands, successors and nested regions.
// Writes nothing that `put_op_shell` has written.
#[cycle(put_blocks_full_put_op_full_put_ops_full)]
pub fn put_op_full(view: &StoreView, numbers: &mut WalkNumbers, key: &mut [u8], n: usize) -> usize
    requires n_bound { n < op_count (columns view.now.store.now) }
    requires definitions_fit { DefinitionsFit (store_read view.now) (full_steps (store_read view.now) n) numbers.old }
    ensures { Puts (store_read view.now) (options_in view.now) (full_steps (store_read view.now) n) (place numbers.old key.old) (place numbers.new key.new) result }
{
    let mut at = put_names(view.store, numbers, key, n);
    for r in number(view.store, OP_REGION_FIRST, n)..number(view.store, OP_REGION_END, n) {
        let rest = at.min(key.len());
        at = at.saturating_add(put_blocks_full(
            view,
            numbers,
            &mut key[rest..],
            Blocks::InRegion(r),
        ));
    }
    at
}

// A list of blocks, the following components in order:
// 1. Every block's shell (attributes and arguments).
// 2. Every operation's shell (attributes, results etc), which doesn't depend on other things.
// 3. Every operation's operands, successors and nested regions.
//
// So any use of a block or value that is defined anywhere in the list is already numbered by the time it's written: forward references too.
#[cycle(put_blocks_full_put_op_full_put_ops_full)]
pub fn put_blocks_full(
    view: &StoreView,
    numbers: &mut WalkNumbers,
    key: &mut [u8],
    blocks: Blocks,
) -> usize
    requires blocks_exist { BlocksExist (columns view.now.store.now) blocks }
    requires definitions_fit { DefinitionsFit (store_read view.now) (listed_steps (store_read view.now) (block_list (store_read view.now) blocks)) numbers.old }
    ensures { Puts (store_read view.now) (options_in view.now) (listed_steps (store_read view.now) (block_list (store_read view.now) blocks)) (place numbers.old key.old) (place numbers.new key.new) result }
{
    let second = put_block_shells(view, numbers, key, blocks);
    let rest = second.min(key.len());
    let mut at = second.saturating_add(put_op_shells(view, numbers, &mut key[rest..], blocks));
    for b in BlocksIn::new(view.store, blocks) {
        let rest = at.min(key.len());
        at = at.saturating_add(put_ops_full(view, numbers, &mut key[rest..], b));
    }
    at
}

// Pass 3 of one block: its operations in full.
#[cycle(put_blocks_full_put_op_full_put_ops_full)]
fn put_ops_full(view: &StoreView, numbers: &mut WalkNumbers, key: &mut [u8], b: usize) -> usize
    requires b_bound { b < block_count (columns view.now.store.now) }
    requires definitions_fit { DefinitionsFit (store_read view.now) (ops_in_full (store_read view.now) b) numbers.old }
    ensures { Puts (store_read view.now) (options_in view.now) (ops_in_full (store_read view.now) b) (place numbers.old key.old) (place numbers.new key.new) result }
{
    let mut at: usize = 0;
    for n in OpsIn::new(view.store, b) {
        let rest = at.min(key.len());
        at = at.saturating_add(put_op_full(view, numbers, &mut key[rest..], n));
    }
    at
}
