// Whether a number is that of an operation, a block, a region or a value. Four one-line tests, each held to its own rule: one with the table as
// a parameter would need four contracts all the same.
ghost use Rattle.std.specs.Prelude.{◌≡◌, length};
ghost use Rattle.rules.specs.Store.{op_exists, block_exists, region_exists, value_exists};
ghost use Rattle.layout.specs.Columns.{buffer_length};
ghost use Rattle.layout.specs.Reading.{store_in};

use crate::columns::{BLOCKS, COUNTS, OPS, REGIONS, StoreWords, VALUES, at};

pub fn op_exists(store: &StoreWords, n: u32) -> bool
    ensures { result ≡ op_exists (store_in store.now) n }
{
    n < at(store, COUNTS, OPS)
}

pub fn block_exists(store: &StoreWords, n: u32) -> bool
    ensures { result ≡ block_exists (store_in store.now) n }
{
    n < at(store, COUNTS, BLOCKS)
}

pub fn region_exists(store: &StoreWords, n: u32) -> bool
    ensures { result ≡ region_exists (store_in store.now) n }
{
    n < at(store, COUNTS, REGIONS)
}

pub fn value_exists(store: &StoreWords, n: u32) -> bool
    ensures { result ≡ value_exists (store_in store.now) n }
{
    n < at(store, COUNTS, VALUES)
}
