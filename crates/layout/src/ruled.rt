// Document 01's rules of a store, row by row, over a buffer that is laid out.
ghost use Rattle.std.specs.Prelude.{◌≡◌, ◌+◌, ◌-◌, ◌<◌, ◌≤◌, leb, ltb, length};
ghost use Rattle.std.specs.List.{list_all};
ghost use Rattle.rules.specs.Lists.{all_below};
ghost use Rattle.rules.specs.Store.{keys_rise, attributes_hold, max_attribute_kind, block_after, sound};
ghost use Rattle.layout.specs.Columns.{buffer_length, columns, op_parent, slot_count};
ghost use Rattle.layout.specs.Reading.{attributes_from, op_count, block_count, value_count, around, parent_from, op_of, store_in};
ghost use Rattle.layout.specs.Soundness.{Arranged, op_rules, block_rules};

use crate::children::op_around;
use crate::columns::{
    BLOCK_ARGUMENT_END, BLOCK_ARGUMENT_FIRST, BLOCK_ATTRIBUTES, BLOCKS, COUNTS, OP_ATTRIBUTES,
    OP_DEPTH, OP_OPERAND_END, OP_OPERAND_FIRST, OP_PARENT, OP_REGION_END, OP_REGION_FIRST,
    OP_RESULT_END, OP_RESULT_FIRST, OP_SUCCESSOR_END, OP_SUCCESSOR_FIRST, OPS, SLOT_KEY, SLOT_KIND,
    StoreWords, VALUES, at, number, words,
};
use crate::lists::all_below;
use crate::owners::first_slot;
use crate::rows::at_most;
use crate::slices::{operands_of, successors_of};
use rules::limits::MAX_NESTING;
use rules::types::Owner;

// The keys of `count` attribute slots, from slot `first` on, rise: each is above the one before it.
fn keys_rise(store: &StoreWords, first: usize, count: usize) -> bool
    requires count_bound { count ≤ 8 }
    requires first_bound { first + 8 ≤ slot_count }
    ensures { result ≡ keys_rise (attributes_from (columns store.now) first count) }
{
    for i in 1..count {
        if at(store, SLOT_KEY, first + i - 1) >= at(store, SLOT_KEY, first + i) {
            return false;
        }
    }
    true
}

// The attribute kinds of these slots are at most 63, as every kind is: with a flag in the same word, the word is below 128.
fn kinds_fit(store: &StoreWords, first: usize, count: usize) -> bool
    requires count_bound { count ≤ 8 }
    requires first_bound { first + 8 ≤ slot_count }
    ensures { result ≡ list_all (λ a. leb a.kind max_attribute_kind) (attributes_from (columns store.now) first count) }
{
    all_below(words(store, SLOT_KIND, first, first + count), 128)
}

// The attributes in these slots keep the rules.
fn attributes_hold(store: &StoreWords, first: usize, count: usize) -> bool
    requires count_bound { count ≤ 8 }
    requires first_bound { first + 8 ≤ slot_count }
    ensures { result ≡ attributes_hold (attributes_from (columns store.now) first count) }
{
    keys_rise(store, first, count) && kinds_fit(store, first, count)
}

// An operation's operands are values of the store.
fn operands_exist(store: &StoreWords, n: usize) -> bool
    requires arranged { Arranged store.now }
    requires n_bound { n < op_count (columns store.now) }
    ensures { result ≡ list_all (λ v. ltb v (value_count (columns store.now))) (op_of (columns store.now) n).operands }
{
    let values = at(store, COUNTS, VALUES);
    all_below(operands_of(store, n), values)
}

// An operation's successors are blocks of the store.
fn successors_exist(store: &StoreWords, n: usize) -> bool
    requires arranged { Arranged store.now }
    requires n_bound { n < op_count (columns store.now) }
    ensures { result ≡ list_all (λ b. ltb b (block_count (columns store.now))) (op_of (columns store.now) n).successors }
{
    let blocks = at(store, COUNTS, BLOCKS);
    all_below(successors_of(store, n), blocks)
}

// An operation keeps the rules.
fn op_rules(store: &StoreWords, n: usize) -> bool
    requires arranged { Arranged store.now }
    requires n_bound { n < op_count (columns store.now) }
    ensures { result ≡ op_rules (columns store.now) n }
{
    if !operands_exist(store, n) {
        return false;
    }
    if !successors_exist(store, n) {
        return false;
    }
    if number(store, OP_DEPTH, n) > MAX_NESTING {
        return false;
    }
    if !at_most(store, OP_REGION_FIRST, OP_REGION_END, n, 8) {
        return false;
    }
    if !at_most(store, OP_RESULT_FIRST, OP_RESULT_END, n, 16) {
        return false;
    }
    if !at_most(store, OP_OPERAND_FIRST, OP_OPERAND_END, n, 16) {
        return false;
    }
    if !at_most(store, OP_SUCCESSOR_FIRST, OP_SUCCESSOR_END, n, 8) {
        return false;
    }
    let first = first_slot(Owner::Op(n as u32));
    attributes_hold(store, first, number(store, OP_ATTRIBUTES, n))
}

// The block around a block has a smaller number, if there is one.
fn block_after(store: &StoreWords, m: usize) -> bool
    requires arranged { Arranged store.now }
    requires m_bound { m < block_count (columns store.now) }
    ensures { result ≡ block_after m (parent_from (Rattle.layout.specs.Columns.at (columns store.now) op_parent (around (columns store.now) m))) }
{
    number(store, OP_PARENT, op_around(store, m)) <= m
}

// A block keeps the rules.
fn block_rules(store: &StoreWords, m: usize) -> bool
    requires arranged { Arranged store.now }
    requires m_bound { m < block_count (columns store.now) }
    ensures { result ≡ block_rules (columns store.now) m }
{
    if !block_after(store, m) {
        return false;
    }
    if !at_most(store, BLOCK_ARGUMENT_FIRST, BLOCK_ARGUMENT_END, m, 16) {
        return false;
    }
    let first = first_slot(Owner::Block(m as u32));
    attributes_hold(store, first, number(store, BLOCK_ATTRIBUTES, m))
}

// Each operation keeps the rules. (One function for this and `blocks_hold`, with the test as a closure in the range's `all`, was tried: that the
// closure may be called with each number stayed open.)
fn ops_hold(store: &StoreWords) -> bool
    requires { Arranged store.now }
    ensures { result ≡ all_below (op_count (columns store.now)) (op_rules (columns store.now)) }
{
    let ops = number(store, COUNTS, OPS);
    for n in 0..ops {
        if !op_rules(store, n) {
            return false;
        }
    }
    true
}

// Each block keeps the rules.
fn blocks_hold(store: &StoreWords) -> bool
    requires { Arranged store.now }
    ensures { result ≡ all_below (block_count (columns store.now)) (block_rules (columns store.now)) }
{
    let blocks = number(store, COUNTS, BLOCKS);
    for m in 0..blocks {
        if !block_rules(store, m) {
            return false;
        }
    }
    true
}

// The store that the words are read as is sound.
pub fn is_ruled(store: &StoreWords) -> bool
    requires { Arranged store.now }
    ensures { result ≡ sound (store_in store.now) }
{
    ops_hold(store) && blocks_hold(store)
}
