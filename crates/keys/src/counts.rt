// How many children a list has, ahead of which a key holds that count. Each function is one line over its own iterator: one for both would be
// longer.
ghost use Rattle.std.specs.Prelude.{◌≡◌, ◌<◌, length};
ghost use Rattle.rules.specs.Store.{ops_of};
ghost use Rattle.layout.specs.Columns.{columns};
ghost use Rattle.layout.specs.Reading.{block_count, store_in};
ghost use Rattle.layout.specs.Soundness.{IsSound};
ghost use Rattle.fragments.specs.Order.{block_list, BlocksExist};

use fragments::order::BlocksIn;
use fragments::types::Blocks;
use layout::columns::StoreWords;
use layout::ops_in::OpsIn;

// The blocks of a list.
pub fn count_blocks(store: &StoreWords, blocks: Blocks) -> usize
    requires sound { IsSound store.now }
    requires blocks_exist { BlocksExist (columns store.now) blocks }
    ensures { result ≡ length (block_list (store_in store.now) blocks) }
{
    BlocksIn::new(store, blocks).count()
}

// The operations of a block.
pub fn count_ops(store: &StoreWords, b: usize) -> usize
    requires sound { IsSound store.now }
    requires b_bound { b < block_count (columns store.now) }
    ensures { result ≡ length (ops_of (store_in store.now) b) }
{
    OpsIn::new(store, b).count()
}
