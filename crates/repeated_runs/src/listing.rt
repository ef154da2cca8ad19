// The operations of a block, listed once, so that a run is a part of a slice.
ghost use Rattle.std.specs.Prelude.{◌≡◌, ◌<◌, length};
ghost use Rattle.rules.specs.Store.{ops_of, max_ops};
ghost use Rattle.layout.specs.Columns.{columns};
ghost use Rattle.layout.specs.Reading.{block_count, store_in};
ghost use Rattle.layout.specs.Soundness.{IsSound};
ghost use Rattle.repeated_runs.specs.Windows.{Lists};

use layout::columns::StoreWords;
use layout::ops_in::OpsIn;

// Writes the numbers of a block's operations, by rising number, to the begin of `ops`, and tells how many there are: this count is what is
// counted by hand.
pub fn ops_in(store: &StoreWords, b: usize, ops: &mut [u32]) -> usize
    requires sound { IsSound store.now }
    requires b_bound { b < block_count (columns store.now) }
    requires ops_len { length ops.old ≡ max_ops }
    ensures lists { Lists ops.new (ops_of (store_in store.now) b) result }
    ensures ops_long { length ops.new ≡ max_ops }
{
    let mut passed = 0;
    for n in OpsIn::new(store, b) {
        ops[passed] = n as u32;
        passed += 1;
    }
    passed
}
