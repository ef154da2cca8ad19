// Where the entries are that a comparison has made in an empty mapping, and taking them out again. They are searched for by what was
// entered: each pair counted is an operation or a block with an image, and a value has one only if its owner has. Where to begin, and how
// far to look, is a guess that only time depends on: if some are not found, every entry is taken out.
ghost use Rattle.std.specs.Prelude.{◌≡◌, ◌+◌, ◌<◌, ◌≤◌, ◌⊎◌, length};
ghost use Rattle.rules.specs.Entered.{EnteredBy};
ghost use Rattle.layout.specs.Columns.{buffer_length, column_count, column_size, columns};
ghost use Rattle.layout.specs.Reading.{store_in};
ghost use Rattle.layout.specs.Soundness.{IsSound};
ghost use Rattle.equivalence.specs.MappingWords.{mapping_length, mapping_of, empty_words};
ghost use Rattle.equivalence.specs.Unmapping.{whole_mapping, EntriesIn, blanked, OwnerAt, OwnValuesAt, OwnersAt, SeenOf, Searched, Widened};

use crate::entries::{Entries, Search};
use crate::mapping::{BLOCK_ENTRIES, MappingWords, NO_IMAGE, OP_ENTRIES};
use layout::columns::{
    BLOCK_ARGUMENT_END, BLOCK_ARGUMENT_FIRST, BLOCK_OP_FIRST, BLOCKS, COUNTS, OP_REGION_FIRST,
    OP_RESULT_END, OP_RESULT_FIRST, OPS, REGION_BLOCK_FIRST, StoreWords, at, number,
};
use rules::types::Sort;
use std::ops::Range;

// More operations and blocks than this are not searched for: to write over the whole mapping costs less.
const FEW: u32 = 24;

// How many blocks and operations are looked at.
const BLOCKS_SEEN: usize = 16;

const OPS_SEEN: usize = 64;

// The values of the block or operation whose entry is word i of the mapping: from the first up to the end.
fn own_values(store: &StoreWords, i: usize) -> Range<u32>
    requires sound { IsSound store.now }
    requires owner_at { OwnerAt (columns store.now) i }
    ensures { OwnValuesAt (columns store.now) i result.start result.end }
{
    if i < OP_ENTRIES {
        let b = i - BLOCK_ENTRIES;
        return at(store, BLOCK_ARGUMENT_FIRST, b)..at(store, BLOCK_ARGUMENT_END, b);
    }
    let n = i - OP_ENTRIES;
    at(store, OP_RESULT_FIRST, n)..at(store, OP_RESULT_END, n)
}

// The search with the block or operation whose entry is word i.
fn found(store: &StoreWords, search: Search, i: usize) -> Search
    requires sound { IsSound store.now }
    requires owner_at { OwnerAt (columns store.now) i }
    requires i_bound { i < 2816 }
    requires left_nonzero { 0 < search.left }
    ensures { Widened (columns store.now) i search result }
{
    let own = own_values(store, i);
    let word = i as u32;
    let before = search.found;
    Search {
        left: search.left - 1,
        found: Entries {
            value: before.value.min(own.start),
            end: before.end.max(own.end),
            owner: before.owner.min(word),
            past: before.past.max(word + 1),
        },
    }
}

// The search with what these words of the mapping have.
fn look(store: &StoreWords, mapping: &MappingWords, seen: Range<usize>, search: Search) -> Search
    requires sound { IsSound store.now }
    requires owners_at { OwnersAt (columns store.now) seen.start seen.end }
    requires searched { Searched (columns store.now) mapping.now seen.start search }
    ensures { Searched (columns store.now) mapping.now seen.end result }
{
    let mut s = search;
    for i in seen {
        if s.left == 0 {
            return s;
        }
        if mapping[i] != NO_IMAGE {
            s = found(store, s, i);
        }
    }
    s
}

// A word of a row, or 0 where there is no such row: a number to begin with.
fn guess(store: &StoreWords, column: usize, n: usize, rows: usize) -> usize
    requires column_lt_column_count { column < column_count }
    requires rows_bound { rows ≤ column_size column }
{
    if n < rows {
        return number(store, column, n);
    }
    0
}

// The smallest number that a block inside the fragment may have. One operation entered is the fragment itself.
fn first_block(store: &StoreWords, sort: Sort, l: usize, paired: u32) -> usize {
    match sort {
        Sort::Op if paired < 2 => 256,
        Sort::Op => {
            let region = guess(store, OP_REGION_FIRST, l, 512);
            guess(store, REGION_BLOCK_FIRST, region, 256)
        }
        Sort::Block => l,
        Sort::Region => guess(store, REGION_BLOCK_FIRST, l, 256),
    }
}

// The smallest number that an operation in the fragment may have, the first block of which is b.
fn first_op(store: &StoreWords, sort: Sort, l: usize, b: usize) -> usize {
    match sort {
        Sort::Op => l,
        Sort::Block => guess(store, BLOCK_OP_FIRST, l, 256),
        Sort::Region => guess(store, BLOCK_OP_FIRST, b, 256),
    }
}

// The words of at most so many entries from number `first` on, of `count` that begin with word `base`. (Each end is `base` and more, by
// branches: where `min` picks a number first, the search no longer knows that its words are of operations, and asks at each.)
fn seen(base: usize, count: usize, first: usize, most: usize) -> Range<usize>
    requires count_bound { base + count ≤ 2816 }
    requires most_bound { most ≤ 2816 }
    ensures { SeenOf base count result.start result.end }
{
    if first >= count {
        return base + count..base + count;
    }
    if first + most >= count {
        return base + first..base + count;
    }
    base + first..base + first + most
}

// The search for what a comparison with this left fragment, which counts so many pairs, has made in an empty mapping.
fn searched(store: &StoreWords, mapping: &MappingWords, sort: Sort, l: usize, paired: u32) -> Search
    requires sound { IsSound store.now }
    requires entered_by { EnteredBy (store_in store.now) (mapping_of mapping.now) paired }
    ensures { Searched (columns store.now) mapping.now 2816 result }
{
    let b = first_block(store, sort, l, paired);
    let n = first_op(store, sort, l, b);
    let blocks = seen(BLOCK_ENTRIES, number(store, COUNTS, BLOCKS), b, BLOCKS_SEEN);
    let ops = seen(OP_ENTRIES, number(store, COUNTS, OPS), n, OPS_SEEN);
    let nowhere = Entries {
        value: 2048,
        end: 0,
        owner: 2816,
        past: 0,
    };
    let nothing = Search {
        left: paired,
        found: nowhere,
    };
    look(store, mapping, ops, look(store, mapping, blocks, nothing))
}

// All of a mapping.
#[tactic(auto, unfolding(crate::specs::Unmapping::whole_mapping))]
fn everywhere() -> Entries
    ensures { result ≡ whole_mapping }
{
    Entries {
        value: 0,
        end: 2048,
        owner: 2048,
        past: 2816,
    }
}

// Where these entries are.
pub fn entered(
    store: &StoreWords,
    mapping: &MappingWords,
    sort: Sort,
    l: u32,
    paired: u32,
) -> Entries
    requires sound { IsSound store.now }
    requires entered_by { EnteredBy (store_in store.now) (mapping_of mapping.now) paired }
    ensures { EntriesIn mapping.now result }
{
    if paired > FEW {
        return everywhere();
    }
    let search = searched(store, mapping, sort, l as usize, paired);
    if search.left > 0 {
        return everywhere();
    }
    search.found
}

// Takes the entries out whose words these are.
fn blank(mapping: &mut MappingWords, from: usize, end: usize)
    requires { end ≤ length mapping.old }
    ensures { mapping.new ≡ blanked mapping.old from end }
{
    if from < end {
        mapping[from..end].fill(NO_IMAGE);
    }
}

// Empties a mapping whose entries are there.
#[tactic(auto, using(crate::proofs::Blanked::blank_both))]
pub fn unmap(mapping: &mut MappingWords, entries: Entries)
    requires { EntriesIn mapping.old entries }
    ensures { mapping.new ≡ empty_words }
{
    blank(mapping, entries.value as usize, entries.end as usize);
    blank(mapping, entries.owner as usize, entries.past as usize);
}

// Empties a mapping that was lent empty to a comparison with this left fragment, which counts so many pairs.
pub fn unmap_entered(
    store: &StoreWords,
    mapping: &mut MappingWords,
    sort: Sort,
    l: u32,
    paired: u32,
)
    requires sound { IsSound store.now }
    requires entered_by { EnteredBy (store_in store.now) (mapping_of mapping.old) paired }
    ensures { mapping.new ≡ empty_words }
{
    let entries = entered(store, mapping, sort, l, paired);
    unmap(mapping, entries);
}
