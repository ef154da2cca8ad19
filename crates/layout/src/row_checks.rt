// Is a row of the buffer laid out? Ranges of children and depths only help to find things: they must agree with the words that tell what
// stands where.
ghost use Rattle.std.specs.Prelude.{◌≡◌, ◌<◌, ◌+◌, Some};
ghost use Rattle.layout.specs.Columns.{columns, at, op_parent};
ghost use Rattle.layout.specs.Reading.{parent_from};
ghost use Rattle.layout.specs.Soundness.{CountsBounded, placed, regions_owned, results_owned, arguments_owned, lists_tiled, op_laid, block_laid, region_laid, value_laid};

use crate::columns::{
    BLOCK_ARGUMENT_END, BLOCK_ARGUMENT_FIRST, BLOCK_ATTRIBUTES, BLOCK_OP_END, BLOCK_OP_FIRST,
    BLOCK_REGION, BLOCKS, COUNTS, OP_ATTRIBUTES, OP_DEPTH, OP_OPERAND_END, OP_OPERAND_FIRST,
    OP_PARENT, OP_REGION_END, OP_REGION_FIRST, OP_RESULT_END, OP_RESULT_FIRST, OP_SUCCESSOR_END,
    OP_SUCCESSOR_FIRST, OPERANDS, OPS, REGION_BLOCK_END, REGION_BLOCK_FIRST, REGION_OP, REGIONS,
    SUCCESSORS, StoreWords, VALUE_OWNER, VALUES, at, number,
};
use crate::rows::{holds, is_tiled, owns};
use rules::limits::MAX_OWN_KEYS;

// Operation n may stand in block b: the operation around b has a smaller number and is one region less deep, and n lies in b's range of
// operations.
#[tactic(auto, unfolding(crate::specs::Soundness::placed, crate::specs::Reading::block_count, crate::specs::Reading::region_count, rules::specs::Lists::every))]
fn placed_in(store: &StoreWords, n: usize, b: usize) -> bool
    requires counts_bounded { CountsBounded store.now }
    requires n_bound { n < 512 }
    ensures { result ≡ placed (columns store.now) n (Some b) }
{
    if b >= number(store, COUNTS, BLOCKS) {
        return false;
    }
    let region = number(store, BLOCK_REGION, b);
    if region >= number(store, COUNTS, REGIONS) {
        return false;
    }
    let around = number(store, REGION_OP, region);
    if around >= n {
        return false;
    }
    let outer = at(store, OP_DEPTH, around) as usize;
    number(store, OP_DEPTH, n) == outer + 1 && holds(store, BLOCK_OP_FIRST, BLOCK_OP_END, b, n)
}

// Operation n stands so in its parent block, or it has no parent and its depth is 0.
fn is_placed(store: &StoreWords, n: usize) -> bool
    requires counts_bounded { CountsBounded store.now }
    requires n_bound { n < 512 }
    ensures { result ≡ placed (columns store.now) n (parent_from (at (columns store.now) op_parent n)) }
{
    let parent = number(store, OP_PARENT, n);
    if parent == 0 {
        return number(store, OP_DEPTH, n) == 0;
    }
    placed_in(store, n, parent - 1)
}

// The regions in operation n's range are its own.
fn regions_owned(store: &StoreWords, n: usize) -> bool
    requires counts_bounded { CountsBounded store.now }
    requires n_bound { n < 512 }
    ensures { result ≡ regions_owned (columns store.now) n }
{
    let first = number(store, OP_REGION_FIRST, n);
    let end = number(store, OP_REGION_END, n);
    let total = number(store, COUNTS, REGIONS);
    owns(store, REGION_OP, first, end, total, n as u32)
}

// The values in operation n's range are its results.
fn results_owned(store: &StoreWords, n: usize) -> bool
    requires counts_bounded { CountsBounded store.now }
    requires n_bound { n < 512 }
    ensures { result ≡ results_owned (columns store.now) n }
{
    let first = number(store, OP_RESULT_FIRST, n);
    let end = number(store, OP_RESULT_END, n);
    let total = number(store, COUNTS, VALUES);
    owns(store, VALUE_OWNER, first, end, total, 2 * n as u32)
}

// The values in block m's range are its arguments.
fn arguments_owned(store: &StoreWords, m: usize) -> bool
    requires counts_bounded { CountsBounded store.now }
    requires m_bound { m < 256 }
    ensures { result ≡ arguments_owned (columns store.now) m }
{
    let first = number(store, BLOCK_ARGUMENT_FIRST, m);
    let end = number(store, BLOCK_ARGUMENT_END, m);
    let total = number(store, COUNTS, VALUES);
    owns(store, VALUE_OWNER, first, end, total, 2 * m as u32 + 1)
}

// Operation n's slices of the two shared lists begin where those of the operation before it end.
#[tactic(auto, unfolding(crate::specs::Soundness::lists_tiled, crate::specs::Reading::operand_count, crate::specs::Reading::successor_count, rules::specs::Lists::every))]
fn lists_tiled(store: &StoreWords, n: usize) -> bool
    requires counts_bounded { CountsBounded store.now }
    requires n_bound { n < 512 }
    ensures { result ≡ lists_tiled (columns store.now) n }
{
    let operands = number(store, COUNTS, OPERANDS);
    if !is_tiled(store, OP_OPERAND_FIRST, OP_OPERAND_END, n, operands) {
        return false;
    }
    let successors = number(store, COUNTS, SUCCESSORS);
    is_tiled(store, OP_SUCCESSOR_FIRST, OP_SUCCESSOR_END, n, successors)
}

// Operation n's row is laid out.
#[tactic(auto, unfolding(crate::specs::Soundness::op_laid, rules::specs::Lists::every))]
pub fn op_laid(store: &StoreWords, n: usize) -> bool
    requires counts_bounded { CountsBounded store.now }
    requires n_bound { n < 512 }
    ensures { result ≡ op_laid (columns store.now) n }
{
    is_placed(store, n)
        && regions_owned(store, n)
        && results_owned(store, n)
        && lists_tiled(store, n)
        && number(store, OP_ATTRIBUTES, n) <= MAX_OWN_KEYS
}

// Block m's row is laid out.
#[tactic(auto, unfolding(crate::specs::Soundness::block_laid, crate::specs::Reading::region_count, crate::specs::Reading::op_count, rules::specs::Lists::every))]
pub fn block_laid(store: &StoreWords, m: usize) -> bool
    requires counts_bounded { CountsBounded store.now }
    requires m_bound { m < 256 }
    ensures { result ≡ block_laid (columns store.now) m }
{
    let region = number(store, BLOCK_REGION, m);
    region < number(store, COUNTS, REGIONS)
        && holds(store, REGION_BLOCK_FIRST, REGION_BLOCK_END, region, m)
        && arguments_owned(store, m)
        && number(store, BLOCK_OP_END, m) <= number(store, COUNTS, OPS)
        && number(store, BLOCK_ATTRIBUTES, m) <= MAX_OWN_KEYS
}

// Region g's row is laid out.
#[tactic(auto, unfolding(crate::specs::Soundness::region_laid, crate::specs::Reading::op_count, crate::specs::Reading::block_count, rules::specs::Lists::every))]
pub fn region_laid(store: &StoreWords, g: usize) -> bool
    requires counts_bounded { CountsBounded store.now }
    requires g_bound { g < 256 }
    ensures { result ≡ region_laid (columns store.now) g }
{
    let op = number(store, REGION_OP, g);
    op < number(store, COUNTS, OPS)
        && holds(store, OP_REGION_FIRST, OP_REGION_END, op, g)
        && number(store, REGION_BLOCK_END, g) <= number(store, COUNTS, BLOCKS)
}

// Value v lies in its owner's range.
#[tactic(auto, unfolding(crate::specs::Soundness::value_laid, crate::specs::Soundness::in_owner, crate::specs::Reading::owner_from, crate::specs::Reading::op_count, crate::specs::Reading::block_count, rules::specs::Lists::every))]
pub fn value_laid(store: &StoreWords, v: usize) -> bool
    requires counts_bounded { CountsBounded store.now }
    requires v_bound { v < 2048 }
    ensures { result ≡ value_laid (columns store.now) v }
{
    let w = number(store, VALUE_OWNER, v);
    let owner = w / 2;
    if w % 2 == 0 {
        if owner >= number(store, COUNTS, OPS) {
            return false;
        }
        return holds(store, OP_RESULT_FIRST, OP_RESULT_END, owner, v);
    }
    owner < number(store, COUNTS, BLOCKS)
        && holds(store, BLOCK_ARGUMENT_FIRST, BLOCK_ARGUMENT_END, owner, v)
}
