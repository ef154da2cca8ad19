// The extent of a fragment, put together from the length of its key, what its walk has numbered, and its size.
ghost use Rattle.std.specs.Prelude.{◌≡◌, ◌<◌, length};
ghost use Rattle.rules.specs.Store.{values_of};
ghost use Rattle.rules.specs.declared.types.Owner.TheVariants.{Op as of_op};
ghost use Rattle.layout.specs.Columns.{columns};
ghost use Rattle.layout.specs.Reading.{op_count, store_in};
ghost use Rattle.layout.specs.Soundness.{IsSound};
ghost use Rattle.fragments.specs.Words.{values_numbered, blocks_numbered};
ghost use Rattle.keys.specs.Extents.{extent_means, of_numbers};

use crate::types::Extent;
use fragments::rows::op_row;
use fragments::types::Size;
use fragments::words::{BLOCKS_NUMBERED, VALUES_NUMBERED, WalkNumbers};
use layout::columns::StoreWords;

// The extent of an operation without regions, whose key has so many bytes.
pub fn lone_extent(store: &StoreWords, n: usize, bytes: u32) -> Extent
    requires sound { IsSound store.now }
    requires n_bound { n < op_count (columns store.now) }
    ensures { extent_means result ≡ of_numbers bytes (length (values_of (store_in store.now) (of_op n))) 0 1 0 }
{
    Extent {
        bytes,
        values: op_row(store, n).values as u32,
        blocks: 0,
        operations: 1,
        nesting: 0,
    }
}

// The extent of a fragment that is walked through, whose key has so many bytes.
#[tactic(auto, unfolding(crate::specs::Extents::extent_means))]
pub fn walked_extent(numbers: &WalkNumbers, size: Size, bytes: u32) -> Extent
    ensures { extent_means result ≡ of_numbers bytes (values_numbered numbers.now) (blocks_numbered numbers.now) size.operations size.nesting }
{
    Extent {
        bytes,
        values: numbers[VALUES_NUMBERED] as u32,
        blocks: numbers[BLOCKS_NUMBERED] as u32,
        operations: size.operations,
        nesting: size.nesting,
    }
}
