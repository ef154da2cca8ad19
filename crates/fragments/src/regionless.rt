// An operation without regions: all that is defined within it are its own results, one after the other in the store and in the walk, so that
// no words are needed to number them.
ghost use Rattle.std.specs.Prelude.{◌≡◌, ◌-◌, true};
ghost use Rattle.rules.specs.Fragments.{exists};
ghost use Rattle.rules.specs.Hash.{name_of};
ghost use Rattle.layout.specs.Reading.{consecutive, store_in};
ghost use Rattle.layout.specs.Soundness.{IsSound};
ghost use Rattle.fragments.specs.Parts.{HoldsNothing};

use crate::rows::op_regions;
use layout::columns::StoreWords;
use rules::types::{Name, Sort};

// Whether the fragment is an operation without regions.
pub fn holds_nothing(store: &StoreWords, sort: Sort, n: usize) -> bool
    requires sound { IsSound store.now }
    requires n_value { exists (store_in store.now) sort n ≡ true }
    ensures { HoldsNothing (store_in store.now) sort n result }
{
    match sort {
        Sort::Op => op_regions(store, n) == 0,
        Sort::Block | Sort::Region => false,
    }
}

// How a use of n is named where the numbers from `first` up to `end` are defined, and nothing else is.
pub fn own_name(first: usize, end: usize, n: u32) -> Name
    ensures { result ≡ name_of (consecutive first (end - first)) n }
{
    let i = n as usize;
    if (first..end).contains(&i) {
        Name::WalkNumber((i - first) as u32)
    } else {
        Name::StoreNumber(n)
    }
}
