// Is the buffer laid out? Its counts first, then every row of its tables, then what rows and counts say together, and the links.
ghost use Rattle.std.specs.Prelude.{true, ◌≡◌, ◌<◌, ◌≤◌, ◌+◌, leb, length};
ghost use Rattle.rules.specs.Lists.{all_below, sum};
ghost use Rattle.layout.specs.Columns.{buffer_length, column_size, counts, columns, at, column_count};
ghost use Rattle.layout.specs.Reading.{tabulate, op_count, block_count};
ghost use Rattle.layout.specs.Soundness.{CountsBounded, op_laid, block_laid, row_laid, attribute_sum, counts_hold, counts_laid, laid_out};

use crate::columns::{
    ATTRIBUTES, BLOCK_ATTRIBUTES, BLOCKS, COUNTS, OP_ATTRIBUTES, OP_OPERAND_END, OP_SUCCESSOR_END,
    OPERANDS, OPS, REGIONS, SUCCESSORS, StoreWords, VALUES, number,
};
use crate::links::{blocks_linked, ops_linked};
use crate::row_checks::{block_laid, op_laid, region_laid, value_laid};
use crate::rows::end_before;
use rules::limits::{
    MAX_ATTRIBUTES, MAX_BLOCKS, MAX_OPERANDS, MAX_OPS, MAX_REGIONS, MAX_SUCCESSORS, MAX_VALUES,
};

// The counts are within the totals of document 01.
#[tactic(auto, unfolding(crate::specs::Soundness::counts_hold, crate::specs::Reading::op_count, crate::specs::Reading::block_count, crate::specs::Reading::region_count, crate::specs::Reading::value_count, crate::specs::Reading::operand_count, crate::specs::Reading::successor_count, crate::specs::Reading::attribute_count, rules::specs::Lists::every))]
fn counts_hold(store: &StoreWords) -> bool
    ensures { result ≡ counts_hold (columns store.now) }
{
    number(store, COUNTS, OPS) <= MAX_OPS
        && number(store, COUNTS, BLOCKS) <= MAX_BLOCKS
        && number(store, COUNTS, REGIONS) <= MAX_REGIONS
        && number(store, COUNTS, VALUES) <= MAX_VALUES
        && number(store, COUNTS, OPERANDS) <= MAX_OPERANDS
        && number(store, COUNTS, SUCCESSORS) <= MAX_SUCCESSORS
        && number(store, COUNTS, ATTRIBUTES) <= MAX_ATTRIBUTES
}

// Row i of a table is laid out. A table is named by its index among the counts: OPS, BLOCKS, REGIONS or VALUES.
fn row_laid(store: &StoreWords, table: usize, i: usize) -> bool
    requires counts_bounded { CountsBounded store.now }
    requires table_bound { table < 4 }
    requires i_bound { i < at (columns store.now) counts table }
    ensures { result ≡ row_laid (columns store.now) table i }
{
    match table {
        OPS => op_laid(store, i),
        BLOCKS => block_laid(store, i),
        REGIONS => region_laid(store, i),
        _ => value_laid(store, i),
    }
}

// Each row of a table is laid out.
fn rows_laid(store: &StoreWords, table: usize) -> bool
    requires counts_bounded { CountsBounded store.now }
    requires table_bound { table < 4 }
    ensures { result ≡ all_below (at (columns store.now) counts table) (row_laid (columns store.now) table) }
{
    let count = number(store, COUNTS, table);
    for i in 0..count {
        if !row_laid(store, table, i) {
            return false;
        }
    }
    true
}

// The sum of the first n words of a column, of which none is above 8.
fn sum_of(store: &StoreWords, column: usize, n: usize) -> usize
    requires column_lt_column_count { column < column_count }
    requires n_bound { n ≤ column_size column }
    requires i_value { all_below n (λ i. leb (at (columns store.now) column i) 8) ≡ true }
    ensures { result ≡ sum (tabulate n (at (columns store.now) column)) }
{
    let mut total: usize = 0;
    for i in 0..n {
        total += number(store, column, i);
    }
    total
}

// How many attributes the operations and the blocks have together.
fn attribute_sum(store: &StoreWords) -> usize
    requires counts_bounded { CountsBounded store.now }
    requires store_value { all_below (op_count (columns store.now)) (op_laid (columns store.now)) ≡ true }
    requires blocks_laid { all_below (block_count (columns store.now)) (block_laid (columns store.now)) ≡ true }
    ensures { result ≡ attribute_sum (columns store.now) }
{
    let ops = number(store, COUNTS, OPS);
    let blocks = number(store, COUNTS, BLOCKS);
    sum_of(store, OP_ATTRIBUTES, ops) + sum_of(store, BLOCK_ATTRIBUTES, blocks)
}

// The shared lists of operands and of successors end where the last operation's slice ends, and there are as many attributes as their
// owners count.
#[tactic(auto, unfolding(crate::specs::Soundness::counts_laid, crate::specs::Reading::op_count, crate::specs::Reading::operand_count, crate::specs::Reading::successor_count, crate::specs::Reading::attribute_count, rules::specs::Lists::every))]
fn counts_laid(store: &StoreWords) -> bool
    requires counts_bounded { CountsBounded store.now }
    requires store_value { all_below (op_count (columns store.now)) (op_laid (columns store.now)) ≡ true }
    requires blocks_laid { all_below (block_count (columns store.now)) (block_laid (columns store.now)) ≡ true }
    ensures { result ≡ counts_laid (columns store.now) }
{
    let ops = number(store, COUNTS, OPS);
    end_before(store, OP_OPERAND_END, ops) == number(store, COUNTS, OPERANDS)
        && end_before(store, OP_SUCCESSOR_END, ops) == number(store, COUNTS, SUCCESSORS)
        && attribute_sum(store) == number(store, COUNTS, ATTRIBUTES)
}

// The buffer is laid out.
#[tactic(auto, unfolding(crate::specs::Soundness::laid_out, crate::specs::Soundness::row_laid, crate::specs::Reading::op_count, crate::specs::Reading::block_count, crate::specs::Reading::region_count, crate::specs::Reading::value_count, rules::specs::Lists::every))]
pub fn laid_out(store: &StoreWords) -> bool
    ensures { result ≡ laid_out (columns store.now) }
{
    counts_hold(store)
        && rows_laid(store, OPS)
        && rows_laid(store, BLOCKS)
        && rows_laid(store, REGIONS)
        && rows_laid(store, VALUES)
        && counts_laid(store)
        && ops_linked(store)
        && blocks_linked(store)
}
