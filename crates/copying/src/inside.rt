// Would the copy go to a place inside the original?
ghost use Rattle.std.specs.Prelude.{◌≡◌, ◌<◌, true};
ghost use Rattle.rules.specs.Store.{parent_exists};
ghost use Rattle.rules.specs.Copying.{placed_outside};
ghost use Rattle.layout.specs.Columns.{columns};
ghost use Rattle.layout.specs.Reading.{op_count, store_in};
ghost use Rattle.layout.specs.Soundness.{IsSound};

use fragments::inside::Fragment;
use layout::columns::StoreWords;
use rules::types::Sort;

// The block that the copy is to go to is not inside the original.
pub fn placed_outside(store: &StoreWords, n: usize, parent: Option<u32>) -> bool
    requires sound { IsSound store.now }
    requires n_bound { n < op_count (columns store.now) }
    requires parent_value { parent_exists (store_in store.now) parent ≡ true }
    ensures { result ≡ placed_outside (store_in store.now) n parent }
{
    let Some(b) = parent else {
        return true;
    };
    let whole = Fragment {
        store,
        sort: Sort::Op,
        n,
    };
    !whole.block_inside(b as usize)
}
