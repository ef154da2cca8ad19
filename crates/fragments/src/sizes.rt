// The size of a fragment, found by recursion into regions: an operation counts itself and its nested operations, and is nested one region
// deeper than the deepest of these. `left` is the remaining nesting: how many regions, one in another, may be inside an operation, 32 less its
// depth. It falls at each round, and so the recursion ends. The sizes of regions and blocks are told as part of the operation around: its
// nesting is one more than theirs.
ghost use Rattle.std.specs.Prelude.{◌≡◌, ◌+◌, ◌-◌, ◌^◌, ◌<◌, min, max, true, length, slice_index};
ghost use Rattle.rules.specs.Store.{ops_of, blocks_of};
ghost use Rattle.rules.specs.Store as rules;
ghost use Rattle.rules.specs.Fragments.{exists, fragment_ops, ops_in_blocks};
ghost use Rattle.rules.specs.Extents.{op_nesting, deepest_nesting};
ghost use Rattle.layout.specs.Columns.{columns};
ghost use Rattle.layout.specs.Reading.{op_count, block_count, region_count, store_in};
ghost use Rattle.layout.specs.Soundness.{IsSound};
ghost use Rattle.fragments.specs.Order.{BlocksExist};
ghost use Rattle.fragments.specs.Sizes.{op_size, ops_size, ops_nesting, SizeIs, LevelsLeft};

use crate::order::BlocksIn;
use crate::types::{Blocks, Size};
use layout::children::op_around;
use layout::columns::{
    OP_DEPTH, OP_REGION_END, OP_REGION_FIRST, REGION_OP, StoreWords, at, number,
};
use layout::ops_in::OpsIn;
use rules::types::Sort;

// Two parts of one fragment.
fn together(a: Size, b: Size) -> Size
    ensures operations { result.operations ≡ min (a.operations + b.operations) (2 ^ 32 - 1) }
    ensures nesting { result.nesting ≡ max a.nesting b.nesting }
{
    Size {
        operations: a.operations.saturating_add(b.operations),
        nesting: a.nesting.max(b.nesting),
    }
}

// An operation.
#[cycle(size_in_block_size_in_region_size_of_op)]
fn size_of_op(store: &StoreWords, n: usize, left: u32) -> Size
    requires sound { IsSound store.now }
    requires n_bound { n < op_count (columns store.now) }
    requires levels { LevelsLeft (store_in store.now) n left }
    ensures { SizeIs (op_size left (store_in store.now) n) (op_nesting left (store_in store.now) n) result }
{
    let mut size = Size {
        operations: 1,
        nesting: 0,
    };
    for r in number(store, OP_REGION_FIRST, n)..number(store, OP_REGION_END, n) {
        size = together(size, size_in_region(store, r, left));
    }
    size
}

// The operations in a region.
#[cycle(size_in_block_size_in_region_size_of_op)]
fn size_in_region(store: &StoreWords, r: usize, left: u32) -> Size
    requires sound { IsSound store.now }
    requires r_bound { r < region_count (columns store.now) }
    requires levels { LevelsLeft (store_in store.now) (slice_index (store_in store.now).regions r) left }
    ensures { SizeIs (ops_size (left - 1) (store_in store.now) (ops_in_blocks (store_in store.now) (blocks_of (store_in store.now) r))) (ops_nesting (left - 1) (store_in store.now) (ops_in_blocks (store_in store.now) (blocks_of (store_in store.now) r))) result }
{
    let mut size = Size {
        operations: 0,
        nesting: 0,
    };
    for b in BlocksIn::new(store, Blocks::InRegion(r)) {
        size = together(size, size_in_block(store, b, left));
    }
    size
}

// The operations in a block.
#[cycle(size_in_block_size_in_region_size_of_op)]
fn size_in_block(store: &StoreWords, b: usize, left: u32) -> Size
    requires sound { IsSound store.now }
    requires b_bound { b < block_count (columns store.now) }
    requires levels { LevelsLeft (store_in store.now) (rules.op_around (store_in store.now) b) left }
    ensures { SizeIs (ops_size (left - 1) (store_in store.now) (ops_of (store_in store.now) b)) (ops_nesting (left - 1) (store_in store.now) (ops_of (store_in store.now) b)) result }
{
    let mut size = Size {
        operations: 0,
        nesting: 0,
    };
    for n in OpsIn::new(store, b) {
        let inner = size_of_op(store, n, left - 1);
        let one = Size {
            operations: inner.operations,
            nesting: inner.nesting + 1,
        };
        size = together(size, one);
    }
    size
}

// How many regions, one in another, may be inside an operation.
fn levels_left(store: &StoreWords, n: usize) -> u32
    requires sound { IsSound store.now }
    requires n_bound { n < op_count (columns store.now) }
    ensures { LevelsLeft (store_in store.now) n result }
{
    32 - at(store, OP_DEPTH, n)
}

// A part of an operation, by itself: the region next inside the operation is not one of those between.
fn by_itself(size: Size) -> Size
    ensures operations { result.operations ≡ size.operations }
    ensures nesting { result.nesting ≡ size.nesting - 1 }
{
    Size {
        operations: size.operations,
        nesting: size.nesting.saturating_sub(1),
    }
}

// A fragment of a sound store.
pub fn fragment_size(store: &StoreWords, sort: Sort, n: usize) -> Size
    requires sound { IsSound store.now }
    requires n_value { exists (store_in store.now) sort n ≡ true }
    ensures operations { result.operations ≡ length (fragment_ops (store_in store.now) sort n) }
    ensures nesting { result.nesting ≡ deepest_nesting (store_in store.now) sort n }
{
    match sort {
        Sort::Op => size_of_op(store, n, levels_left(store, n)),
        Sort::Block => by_itself(size_in_block(store, n, levels_left(store, op_around(store, n)))),
        Sort::Region => {
            let around = number(store, REGION_OP, n);
            by_itself(size_in_region(store, n, levels_left(store, around)))
        }
    }
}
