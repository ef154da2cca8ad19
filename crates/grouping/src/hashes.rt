// The hash of each operation of a store.
ghost use Rattle.std.specs.Prelude.{take};
ghost use Rattle.layout.specs.Columns.{columns};
ghost use Rattle.layout.specs.Reading.{op_count};
ghost use Rattle.fragments.specs.View.{options_in, store_read};
ghost use Rattle.grouping.specs.Twins.{HashesOf};

use fragments::view::StoreView;
use hashing::hashes::existing_hash;
use layout::columns::{COUNTS, OPS, number};
use rules::limits::MAX_OPS;
use rules::types::Sort;

// Writes the hash of each operation, by its number.
pub fn operation_hashes(view: &StoreView, hashes: &mut [u64; MAX_OPS])
    ensures { HashesOf (store_read view.now) (options_in view.now) (take (op_count (columns view.now.store.now)) hashes.new) }
{
    for n in 0..number(view.store, COUNTS, OPS) {
        hashes[n] = existing_hash(view, Sort::Op, n);
    }
}
