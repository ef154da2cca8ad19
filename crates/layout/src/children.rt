// Children are found one after the other: the next operation of a block, or the next block of a region, from a number on. And the operation
// around a block.
ghost use Rattle.std.specs.Prelude.{◌≡◌, ℕ, List, [], ◌∷◌, ◌-◌, ◌<◌, ◌≤◌, length};
ghost use Rattle.rules.specs.Store.{ops_of, blocks_of};
ghost use Rattle.layout.specs.Columns.{buffer_length, column_size, columns, column_count};
ghost use Rattle.layout.specs.Reading.{block_count, region_count, around, store_in};
ghost use Rattle.layout.specs.Soundness.{Arranged};
ghost use Rattle.layout.specs.Children.{first_from, first_word, link_found, behind_child};
ghost use Rattle.layout.specs.Families.{OwnsChildren};

use crate::columns::{BLOCK_REGION, COUNTS, REGION_OP, StoreWords, at, number};
use crate::families::{BLOCKS_IN_REGIONS, Family, OPS_IN_BLOCKS};

// The first index from `a` up to `e` at which a column has the word `w`.
fn first_at(store: &StoreWords, column: usize, w: u32, a: usize, e: usize) -> Option<usize>
    requires column_lt_column_count { column < column_count }
    requires e_bound { e ≤ column_size column }
    ensures { result ≡ (first_word (columns store.now) column w a (e - a)) }
{
    for i in a..e {
        if at(store, column, i) == w {
            return Some(i);
        }
    }
    None
}

// The number before `from` is that of a child, of `count` children, whose owner's word is `w`.
#[tactic(auto, unfolding(crate::specs::Children::behind_child, rules::specs::Lists::every))]
pub fn is_behind(store: &StoreWords, owners: usize, count: usize, w: u32, from: usize) -> bool
    requires owners_lt_column_count { owners < column_count }
    requires count_bound { count ≤ column_size owners }
    ensures { result ≡ behind_child (columns store.now) owners count w from }
{
    from != 0 && from <= count && at(store, owners, from - 1) == w
}

// What a link leads to: 0 is no child's link.
fn linked(link: usize) -> Option<usize>
    ensures { result ≡ link_found link }
{
    if link == 0 {
        return None;
    }
    Some(link)
}

// The first child of an owner whose number is not below `from`. Behind a child of the owner its link tells; else the owner's range is
// searched, which a store built by calls begins with its first child. (Out of line, a walk takes half as long again.)
#[inline(always)]
fn next_child(store: &StoreWords, family: Family, owner: usize, from: usize) -> Option<usize>
    ghost children: { List ℕ }
    requires { OwnsChildren (columns store.now) family owner children }
    ensures { result ≡ (first_from from children) }
{
    let count = number(store, COUNTS, family.table);
    let word = (owner + family.offset) as u32;
    if is_behind(store, family.owners, count, word, from) {
        return linked(number(store, family.links, from - 1));
    }
    let start = from.max(number(store, family.firsts, owner));
    let end = number(store, family.ends, owner);
    first_at(store, family.owners, word, start, end)
}

// The first operation of a block whose number is not below `from`.
pub fn next_op(store: &StoreWords, block: usize, from: usize) -> Option<usize>
    requires arranged { Arranged store.now }
    requires block_bound { block < block_count (columns store.now) }
    ensures { result ≡ first_from from (ops_of (store_in store.now) block) }
{
    next_child(store, OPS_IN_BLOCKS, block, from)
}

// The first block of a region whose number is not below `from`.
pub fn next_block(store: &StoreWords, region: usize, from: usize) -> Option<usize>
    requires arranged { Arranged store.now }
    requires region_bound { region < region_count (columns store.now) }
    ensures { result ≡ first_from from (blocks_of (store_in store.now) region) }
{
    next_child(store, BLOCKS_IN_REGIONS, region, from)
}

// The operation around a block.
pub fn op_around(store: &StoreWords, block: usize) -> usize
    requires arranged { Arranged store.now }
    requires block_bound { block < block_count (columns store.now) }
    ensures { result ≡ around (columns store.now) block }
{
    number(store, REGION_OP, number(store, BLOCK_REGION, block))
}

// The same of a list that has only `n`.
pub fn one_from(n: usize, from: usize) -> Option<usize>
    ensures { result ≡ (first_from from (n ∷ [])) }
{
    if from <= n {
        return Some(n);
    }
    None
}
