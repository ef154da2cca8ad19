// How much there is to copy of everything, and is there room for it?
ghost use Rattle.std.specs.Prelude.{◌≡◌, ◌<◌, ℕ, Option};
ghost use Rattle.rules.specs.Store.{totals_hold};
ghost use Rattle.rules.specs.Copying.{copied};
ghost use Rattle.layout.specs.Columns.{columns};
ghost use Rattle.layout.specs.Reading.{op_count, block_count, store_in};
ghost use Rattle.layout.specs.Soundness.{IsSound};
ghost use Rattle.copying.specs.Totals.{TotalsFit, op_totalled, block_totalled, totalled};

use crate::original::Original;
use crate::steps::Step;
use fragments::rows::span;
use layout::columns::{
    ATTRIBUTES, BLOCK_ARGUMENT_END, BLOCK_ARGUMENT_FIRST, BLOCK_ATTRIBUTES, BLOCKS, COUNTS,
    OP_ATTRIBUTES, OP_OPERAND_END, OP_OPERAND_FIRST, OP_REGION_END, OP_REGION_FIRST, OP_RESULT_END,
    OP_RESULT_FIRST, OP_SUCCESSOR_END, OP_SUCCESSOR_FIRST, OPERANDS, OPS, REGIONS, SUCCESSORS,
    StoreWords, VALUES, number,
};
use rules::limits::{
    MAX_ATTRIBUTES, MAX_BLOCKS, MAX_OPERANDS, MAX_OPS, MAX_REGIONS, MAX_SUCCESSORS, MAX_VALUES,
};

// How many of each: in the order of the store's counts.
#[derive(Clone, Copy, Default)]
pub struct Totals {
    pub ops: usize,
    pub blocks: usize,
    pub regions: usize,
    pub values: usize,
    pub operands: usize,
    pub successors: usize,
    pub attributes: usize,
}

// One operation more.
#[tactic(auto, using(crate::proofs::Spans::op_spans), unfolding(crate::specs::Totals::op_totalled, crate::specs::Totals::span_of))]
fn with_op(store: &StoreWords, so_far: Totals, m: usize) -> Totals
    requires sound { IsSound store.now }
    requires m_bound { m < op_count (columns store.now) }
    requires few { TotalsFit so_far }
    ensures { result ≡ op_totalled (columns store.now) so_far m }
{
    Totals {
        ops: so_far.ops + 1,
        regions: so_far.regions + span(store, OP_REGION_FIRST, OP_REGION_END, m),
        values: so_far.values + span(store, OP_RESULT_FIRST, OP_RESULT_END, m),
        operands: so_far.operands + span(store, OP_OPERAND_FIRST, OP_OPERAND_END, m),
        successors: so_far.successors + span(store, OP_SUCCESSOR_FIRST, OP_SUCCESSOR_END, m),
        attributes: so_far.attributes + number(store, OP_ATTRIBUTES, m),
        ..so_far
    }
}

// One block more.
#[tactic(auto, using(crate::proofs::Spans::block_spans), unfolding(crate::specs::Totals::block_totalled, crate::specs::Totals::span_of))]
fn with_block(store: &StoreWords, so_far: Totals, b: usize) -> Totals
    requires sound { IsSound store.now }
    requires b_bound { b < block_count (columns store.now) }
    requires few { TotalsFit so_far }
    ensures { result ≡ block_totalled (columns store.now) so_far b }
{
    Totals {
        blocks: so_far.blocks + 1,
        values: so_far.values + span(store, BLOCK_ARGUMENT_FIRST, BLOCK_ARGUMENT_END, b),
        attributes: so_far.attributes + number(store, BLOCK_ATTRIBUTES, b),
        ..so_far
    }
}

// All that the original defines and has.
fn totals_of(original: &Original) -> Totals
    ensures { result ≡ totalled (columns original.now.store.now) original.now.n }
{
    let mut sum = Totals::default();
    for step in original.steps {
        sum = match *step {
            Step::OpShell(m) => with_op(original.store, sum, m as usize),
            Step::BlockShell(b) => with_block(original.store, sum, b as usize),
            Step::Names(_) => sum,
        };
    }
    sum
}

// There is room for all of it.
pub fn copy_totals_hold(original: &Original) -> bool
    ensures { (place : Option ℕ) → result ≡ totals_hold (copied (store_in original.now.store.now) original.now.n place) }
{
    let store = original.store;
    let more = totals_of(original);
    number(store, COUNTS, OPS) + more.ops <= MAX_OPS
        && number(store, COUNTS, BLOCKS) + more.blocks <= MAX_BLOCKS
        && number(store, COUNTS, REGIONS) + more.regions <= MAX_REGIONS
        && number(store, COUNTS, VALUES) + more.values <= MAX_VALUES
        && number(store, COUNTS, OPERANDS) + more.operands <= MAX_OPERANDS
        && number(store, COUNTS, SUCCESSORS) + more.successors <= MAX_SUCCESSORS
        && number(store, COUNTS, ATTRIBUTES) + more.attributes <= MAX_ATTRIBUTES
}
