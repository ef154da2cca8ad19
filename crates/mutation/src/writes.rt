// What an accepted call writes. Each function writes what the definition of its contract says, column by column, and nothing else.
ghost use Rattle.std.specs.Prelude.{◌≡◌, ℕ, ◌+◌, ◌<◌, ◌≤◌, length};
ghost use Rattle.layout.specs.Columns.{buffer_length, column_size, columns, at, counts, column_count};
ghost use Rattle.layout.specs.Reading.{region_count, value_count};
ghost use Rattle.mutation.specs.AddedWrites.{with_row, begun, Placeable, last_linked, extended, child_placed, with_slice, with_regions, with_values_by};

use layout::children::is_behind;
use layout::columns::{
    COUNTS, REGION_BLOCK_END, REGION_BLOCK_FIRST, REGION_OP, REGIONS, StoreWords, VALUE_OWNER,
    VALUE_TYPE, VALUES, at, number, put, put_all, put_same,
};
use layout::families::Family;

// Writes row n of a table: its words, one to a column, from column `first` on.
pub fn put_row(store: &mut StoreWords, first: usize, n: usize, row: &[u32])
    requires row_bound { first + length row.now ≤ column_count }
    requires by_index { (j : ℕ) → j < length row.now → n < column_size (first + j) }
    ensures { columns store.new ≡ with_row (columns store.old) first n row.now }
{
    for (j, word) in row.iter().enumerate() {
        put(store, first + j, n, *word);
    }
}

// Where a range of children begins once n is in it: at n if it was empty, else where it began before.
#[tactic(auto, unfolding(crate::specs::AddedWrites::begun))]
fn begin(first: u32, end: u32, n: u32) -> u32
    ensures { result ≡ begun first end n }
{
    if end <= first {
        return n;
    }
    first
}

// The last child before n, with which its owner's range ends, is linked to n.
#[inline(always)]
#[tactic(auto, using(layout::proofs::Linking::behind_facts), unfolding(crate::specs::AddedWrites::last_linked))]
fn link_last(store: &mut StoreWords, family: Family, owner: usize, n: usize)
    requires { Placeable family owner n }
    ensures { columns store.new ≡ last_linked (columns store.old) family.owners family.links (at (columns store.old) family.ends owner) (owner + family.offset) n }
{
    let end = number(store, family.ends, owner);
    let word = (owner + family.offset) as u32;
    if is_behind(store, family.owners, n, word, end) {
        put(store, family.links, end - 1, n as u32);
    }
}

// A new child, number n, goes to the end of its owner's range.
#[inline(always)]
fn extend(store: &mut StoreWords, family: Family, owner: usize, n: usize)
    requires { Placeable family owner n }
    ensures { columns store.new ≡ extended (columns store.old) family.firsts family.ends owner n }
{
    let first = at(store, family.firsts, owner);
    let end = at(store, family.ends, owner);
    put(store, family.firsts, owner, begin(first, end, n as u32));
    put(store, family.ends, owner, (n + 1) as u32);
}

// A new child, number n, goes to the end of its owner's range; the one before it is linked to it, and it to none yet.
#[inline(always)]
#[tactic(auto, unfolding(crate::specs::AddedWrites::child_placed, crate::specs::AddedWrites::child_linked))]
pub fn place_child(store: &mut StoreWords, family: Family, owner: usize, n: usize)
    requires { Placeable family owner n }
    ensures { columns store.new ≡ child_placed (columns store.old) family.owners family.links family.firsts family.ends owner (owner + family.offset) n }
{
    link_last(store, family, owner, n);
    put(store, family.links, n, 0);
    extend(store, family, owner, n);
}

// Makes `regions` regions of operation n, without blocks.
#[tactic(auto, unfolding(layout::specs::Reading::region_count, crate::specs::AddedWrites::with_regions))]
pub fn put_regions(store: &mut StoreWords, n: usize, regions: usize)
    requires n_bound { n < 512 }
    requires regions_bound { region_count (columns store.old) + regions ≤ 256 }
    ensures { columns store.new ≡ with_regions (columns store.old) n regions }
{
    let from = number(store, COUNTS, REGIONS);
    put_same(store, REGION_OP, from, regions, n as u32);
    put_same(store, REGION_BLOCK_FIRST, from, regions, 0);
    put_same(store, REGION_BLOCK_END, from, regions, 0);
    put(store, COUNTS, REGIONS, (from + regions) as u32);
}

// Makes the values of a new owner, one of each type. The owner is given as a word: twice an operation's number, or twice a block's number
// and one.
#[tactic(auto, unfolding(layout::specs::Reading::value_count, crate::specs::AddedWrites::with_values_by))]
pub fn put_values(store: &mut StoreWords, owner: u32, types: &[u32])
    requires { value_count (columns store.old) + length types.now ≤ 2048 }
    ensures { columns store.new ≡ with_values_by (columns store.old) owner types.now }
{
    let from = number(store, COUNTS, VALUES);
    put_all(store, VALUE_TYPE, from, types);
    put_same(store, VALUE_OWNER, from, types.len(), owner);
    put(store, COUNTS, VALUES, (from + types.len()) as u32);
}

// Appends a list to a shared list; the shared list's length is word `word` of the counts.
#[tactic(auto, unfolding(crate::specs::AddedWrites::with_slice))]
pub fn put_slice(store: &mut StoreWords, column: usize, word: usize, list: &[u32])
    requires column_lt_column_count { column < column_count }
    requires word_bound { word < 8 }
    requires list_bound { at (columns store.old) counts word + length list.now ≤ column_size column }
    requires column_bound { column_size column ≤ 2048 }
    ensures { columns store.new ≡ with_slice (columns store.old) column word list.now }
{
    let from = number(store, COUNTS, word);
    put_all(store, column, from, list);
    put(store, COUNTS, word, (from + list.len()) as u32);
}
