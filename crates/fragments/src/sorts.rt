// A fragment by its sort and number.
ghost use Rattle.std.specs.Prelude.{◌≡◌};
ghost use Rattle.rules.specs.Fragments;
ghost use Rattle.layout.specs.Reading.{store_in};

use layout::columns::StoreWords;
use layout::existing::{block_exists, op_exists, region_exists};
use rules::types::Sort;

// There is a fragment of this sort and number.
#[tactic(auto, unfolding(rules::specs::Fragments::exists))]
pub fn exists(store: &StoreWords, sort: Sort, n: u32) -> bool
    ensures { result ≡ Fragments.exists (store_in store.now) sort n }
{
    match sort {
        Sort::Op => op_exists(store, n),
        Sort::Block => block_exists(store, n),
        Sort::Region => region_exists(store, n),
    }
}
