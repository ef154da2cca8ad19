// The first two passes of `put_blocks_full`: what a list of blocks defines is written by itself and numbered, before any use is.
ghost use Rattle.std.specs.Prelude.{◌<◌};
ghost use Rattle.std.specs.List.{flat_map};
ghost use Rattle.layout.specs.Columns.{columns};
ghost use Rattle.layout.specs.Reading.{block_count};
ghost use Rattle.fragments.specs.Order.{block_list, BlocksExist};
ghost use Rattle.fragments.specs.Numbered.{DefinitionsFit};
ghost use Rattle.fragments.specs.Parts.{block_shells, op_shells};
ghost use Rattle.fragments.specs.View.{store_read, options_in};
ghost use Rattle.keys.specs.Written.{place, Puts};

use crate::counts::{count_blocks, count_ops};
use crate::numbers::put_counted;
use crate::shells::{put_block_shell, put_op_shell};
use fragments::order::BlocksIn;
use fragments::types::Blocks;
use fragments::view::StoreView;
use fragments::words::WalkNumbers;
use layout::ops_in::OpsIn;

// Pass 1: how many blocks there are, then every block's shell.
pub fn put_block_shells(
    view: &StoreView,
    numbers: &mut WalkNumbers,
    key: &mut [u8],
    blocks: Blocks,
) -> usize
    requires blocks_exist { BlocksExist (columns view.now.store.now) blocks }
    requires definitions_fit { DefinitionsFit (store_read view.now) (block_shells (block_list (store_read view.now) blocks)) numbers.old }
    ensures { Puts (store_read view.now) (options_in view.now) (block_shells (block_list (store_read view.now) blocks)) (place numbers.old key.old) (place numbers.new key.new) result }
{
    let mut at = put_counted(key, || count_blocks(view.store, blocks));
    for b in BlocksIn::new(view.store, blocks) {
        let rest = at.min(key.len());
        at = at.saturating_add(put_block_shell(view, numbers, &mut key[rest..], b));
    }
    at
}

// Pass 2 of one block: how many operations it has, then their shells.
fn put_op_shells_in(view: &StoreView, numbers: &mut WalkNumbers, key: &mut [u8], b: usize) -> usize
    requires b_bound { b < block_count (columns view.now.store.now) }
    requires definitions_fit { DefinitionsFit (store_read view.now) (op_shells (store_read view.now) b) numbers.old }
    ensures { Puts (store_read view.now) (options_in view.now) (op_shells (store_read view.now) b) (place numbers.old key.old) (place numbers.new key.new) result }
{
    let mut at = put_counted(key, || count_ops(view.store, b));
    for n in OpsIn::new(view.store, b) {
        let rest = at.min(key.len());
        at = at.saturating_add(put_op_shell(view, numbers, &mut key[rest..], n));
    }
    at
}

// Pass 2: the shells of every block's operations.
pub fn put_op_shells(
    view: &StoreView,
    numbers: &mut WalkNumbers,
    key: &mut [u8],
    blocks: Blocks,
) -> usize
    requires blocks_exist { BlocksExist (columns view.now.store.now) blocks }
    requires definitions_fit { DefinitionsFit (store_read view.now) (flat_map (op_shells (store_read view.now)) (block_list (store_read view.now) blocks)) numbers.old }
    ensures { Puts (store_read view.now) (options_in view.now) (flat_map (op_shells (store_read view.now)) (block_list (store_read view.now) blocks)) (place numbers.old key.old) (place numbers.new key.new) result }
{
    let mut at: usize = 0;
    for b in BlocksIn::new(view.store, blocks) {
        let rest = at.min(key.len());
        at = at.saturating_add(put_op_shells_in(view, numbers, &mut key[rest..], b));
    }
    at
}
