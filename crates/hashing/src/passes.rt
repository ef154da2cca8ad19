// The first two passes of `hash_blocks_full`: what a list of blocks defines is hashed by itself and numbered, before any use is hashed.
ghost use Rattle.std.specs.Prelude.{◌<◌};
ghost use Rattle.std.specs.List.{flat_map};
ghost use Rattle.layout.specs.Columns.{columns};
ghost use Rattle.layout.specs.Reading.{block_count};
ghost use Rattle.fragments.specs.View.{options_in, store_read};
ghost use Rattle.fragments.specs.Numbered.{DefinitionsFit};
ghost use Rattle.fragments.specs.Parts.{block_shells, op_shells};
ghost use Rattle.hashing.specs.Walked.{Feeds};
ghost use Rattle.fragments.specs.Order.{block_list, BlocksExist};

use crate::shells::{hash_block_shell, hash_op_shell};
use crate::state::RunningHash;
use fragments::order::BlocksIn;
use fragments::types::Blocks;
use fragments::view::StoreView;
use fragments::words::WalkNumbers;
use layout::ops_in::OpsIn;

// Pass 1: every block's shell.
pub fn hash_block_shells(
    view: &StoreView,
    numbers: &mut WalkNumbers,
    blocks: Blocks,
    state: &mut RunningHash,
)
    requires blocks_exist { BlocksExist (columns view.now.store.now) blocks }
    requires definitions_fit { DefinitionsFit (store_read view.now) (block_shells (block_list (store_read view.now) blocks)) numbers.old }
    ensures { Feeds (store_read view.now) (options_in view.now) (block_shells (block_list (store_read view.now) blocks)) numbers.old numbers.new state.old.word state.new.word }
{
    for b in BlocksIn::new(view.store, blocks) {
        hash_block_shell(view, numbers, b, state);
    }
}

// Pass 2 of one block: the shells of its operations.
fn hash_op_shells_in(view: &StoreView, numbers: &mut WalkNumbers, b: usize, state: &mut RunningHash)
    requires b_bound { b < block_count (columns view.now.store.now) }
    requires definitions_fit { DefinitionsFit (store_read view.now) (op_shells (store_read view.now) b) numbers.old }
    ensures { Feeds (store_read view.now) (options_in view.now) (op_shells (store_read view.now) b) numbers.old numbers.new state.old.word state.new.word }
{
    for n in OpsIn::new(view.store, b) {
        hash_op_shell(view, numbers, n, state);
    }
}

// Pass 2: the shells of every block's operations.
pub fn hash_op_shells(
    view: &StoreView,
    numbers: &mut WalkNumbers,
    blocks: Blocks,
    state: &mut RunningHash,
)
    requires blocks_exist { BlocksExist (columns view.now.store.now) blocks }
    requires definitions_fit { DefinitionsFit (store_read view.now) (flat_map (op_shells (store_read view.now)) (block_list (store_read view.now) blocks)) numbers.old }
    ensures { Feeds (store_read view.now) (options_in view.now) (flat_map (op_shells (store_read view.now)) (block_list (store_read view.now) blocks)) numbers.old numbers.new state.old.word state.new.word }
{
    for b in BlocksIn::new(view.store, blocks) {
        hash_op_shells_in(view, numbers, b, state);
    }
}
