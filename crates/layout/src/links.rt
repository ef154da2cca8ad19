// Are the links right, from each child of a block or region to the next one? The children are gone through from the last to the first, so
// that the next one is known by the time it is asked for.
ghost use Rattle.std.specs.Prelude.{true, ◌≡◌, ◌+◌, ◌<◌, length};
ghost use Rattle.rules.specs.Lists.{all_below};
ghost use Rattle.layout.specs.Columns.{at, buffer_length, column_size, columns, counts};
ghost use Rattle.layout.specs.Reading.{op_count, block_count};
ghost use Rattle.layout.specs.Soundness.{CountsBounded, op_laid, block_laid, link_holds, op_linked, block_linked};
ghost use Rattle.layout.specs.Families.{Linkable, child_linked, child_linked_by};

use crate::columns::{COUNTS, StoreWords, at, number};
use crate::families::{BLOCKS_IN_REGIONS, Family, OPS_IN_BLOCKS};

// The link of child n is the number of the next child, or 0 from the last one, with which its owner's range ends.
fn link_holds(next: u32, link: u32, end: usize, n: usize) -> bool
    requires { n < 512 }
    ensures { result ≡ link_holds next link end n }
{
    if link != next {
        return false;
    }
    if next != 0 {
        return true;
    }
    end == n + 1
}

// The link of child n, whose word in the column of owners is given; a child without an owner has no link to test.
#[inline(always)]
fn child_linked(store: &StoreWords, family: Family, n: usize, word: usize, next: u32) -> bool
    requires linkable { Linkable (columns store.now) family }
    requires n_bound { n < at (columns store.now) counts family.table }
    requires word_bound { word < column_size family.ends + family.offset }
    ensures { result ≡ child_linked_by (columns store.now) family n word next }
{
    if word < family.offset {
        return true;
    }
    let end = number(store, family.ends, word - family.offset);
    link_holds(next, at(store, family.links, n), end, n)
}

// Each child is linked to the next of its owner. `firsts` has, for each word of an owner, the first child behind n with that word.
#[inline(always)]
fn children_linked(store: &StoreWords, family: Family) -> bool
    requires { Linkable (columns store.now) family }
    ensures { result ≡ all_below (Rattle.layout.specs.Columns.at (columns store.now) counts family.table) (child_linked (columns store.now) family) }
{
    let mut firsts: [u32; 257] = [0; 257];
    let count = number(store, COUNTS, family.table);
    for n in (0..count).rev() {
        let word = number(store, family.owners, n);
        if !child_linked(store, family, n, word, firsts[word]) {
            return false;
        }
        firsts[word] = n as u32;
    }
    true
}

// Each operation in a block is linked to the next.
pub fn ops_linked(store: &StoreWords) -> bool
    requires counts_bounded { CountsBounded store.now }
    requires store_value { all_below (op_count (columns store.now)) (op_laid (columns store.now)) ≡ true }
    ensures { result ≡ all_below (op_count (columns store.now)) (op_linked (columns store.now)) }
{
    children_linked(store, OPS_IN_BLOCKS)
}

// Each block is linked to the next of its region.
pub fn blocks_linked(store: &StoreWords) -> bool
    requires counts_bounded { CountsBounded store.now }
    requires store_value { all_below (block_count (columns store.now)) (block_laid (columns store.now)) ≡ true }
    ensures { result ≡ all_below (block_count (columns store.now)) (block_linked (columns store.now)) }
{
    children_linked(store, BLOCKS_IN_REGIONS)
}
