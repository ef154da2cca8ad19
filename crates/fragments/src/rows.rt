// What an operation and a block have by themselves, read off their rows: what is compared of two, and what is hashed of one.
ghost use Rattle.std.specs.Prelude.{◌≡◌, ◌-◌, ◌<◌, ◌≤◌, true, length};
ghost use Rattle.rules.specs.Store.{owner_exists, regions_of};
ghost use Rattle.rules.specs.declared.types.Owner.TheVariants.{Op as of_op, Block as of_block};
ghost use Rattle.layout.specs.Columns.{buffer_length, column_size, columns, column_count};
ghost use Rattle.layout.specs.Reading.{op_count, block_count, store_in};
ghost use Rattle.layout.specs.Soundness.{IsSound};
ghost use Rattle.fragments.specs.Rows.{RowOf, HeadOf, own_columns};

use crate::types::{OpHeader, ShellRow};
use layout::columns::{
    BLOCK_ARGUMENT_END, BLOCK_ARGUMENT_FIRST, BLOCK_LOCATION, OP_KIND, OP_LOCATION, OP_OPERAND_END,
    OP_OPERAND_FIRST, OP_REGION_END, OP_REGION_FIRST, OP_RESULT_END, OP_RESULT_FIRST,
    OP_SUCCESSOR_END, OP_SUCCESSOR_FIRST, StoreWords, at, number,
};
use layout::owners::{first_slot, key_count, owner_number};
use rules::types::Owner;

// How many numbers there are in a row's range.
pub fn span(store: &StoreWords, first: usize, end: usize, n: usize) -> usize
    requires first_lt_column_count { first < column_count }
    requires end_lt_column_count { end < column_count }
    requires n_bound { n < column_size first }
    requires end_bound { n < column_size end }
    requires range_rises { Rattle.layout.specs.Columns.at (columns store.now) first n ≤ Rattle.layout.specs.Columns.at (columns store.now) end n }
    ensures { result ≡ Rattle.layout.specs.Columns.at (columns store.now) end n - Rattle.layout.specs.Columns.at (columns store.now) first n }
{
    number(store, end, n) - number(store, first, n)
}

// The columns of what an operation or a block has by itself: its location, and where its results or arguments begin and end.
#[derive(Clone, Copy)]
struct OwnColumns {
    location: usize,
    first: usize,
    end: usize,
}

#[tactic(auto, unfolding(crate::specs::Rows::own_columns))]
fn own_columns(owner: Owner) -> OwnColumns
    ensures { result ≡ own_columns owner }
{
    match owner {
        Owner::Op(_) => OwnColumns {
            location: OP_LOCATION,
            first: OP_RESULT_FIRST,
            end: OP_RESULT_END,
        },
        Owner::Block(_) => OwnColumns {
            location: BLOCK_LOCATION,
            first: BLOCK_ARGUMENT_FIRST,
            end: BLOCK_ARGUMENT_END,
        },
    }
}

// The row of an operation or a block; an operation's values are its results, a block's its arguments.
pub fn owner_row(store: &StoreWords, owner: Owner) -> ShellRow
    requires sound { IsSound store.now }
    requires owner_value { owner_exists (store_in store.now) owner ≡ true }
    ensures { RowOf (columns store.now) owner result }
{
    let own = own_columns(owner);
    let n = owner_number(owner);
    ShellRow {
        location: at(store, own.location, n),
        slot: first_slot(owner),
        attributes: key_count(store, owner),
        value: number(store, own.first, n),
        values: span(store, own.first, own.end, n),
    }
}

// The row of an operation.
#[tactic(auto, using(layout::proofs::OwnerKeys::in_exists))]
pub fn op_row(store: &StoreWords, n: usize) -> ShellRow
    requires sound { IsSound store.now }
    requires n_bound { n < op_count (columns store.now) }
    ensures { RowOf (columns store.now) (of_op n) result }
{
    owner_row(store, Owner::Op(n as u32))
}

// The row of a block.
#[tactic(auto, using(layout::proofs::OwnerKeys::in_exists))]
pub fn block_row(store: &StoreWords, n: usize) -> ShellRow
    requires sound { IsSound store.now }
    requires n_bound { n < block_count (columns store.now) }
    ensures { RowOf (columns store.now) (of_block n) result }
{
    owner_row(store, Owner::Block(n as u32))
}

// How many regions an operation has.
#[tactic(auto, using(crate::proofs::Few::regions_rise, crate::proofs::ByRows::op_regions))]
pub fn op_regions(store: &StoreWords, n: usize) -> usize
    requires sound { IsSound store.now }
    requires n_bound { n < op_count (columns store.now) }
    ensures { result ≡ length (regions_of (store_in store.now) n) }
{
    span(store, OP_REGION_FIRST, OP_REGION_END, n)
}

// What an operation has besides its row.
#[tactic(auto, using(crate::proofs::Few::operands_rise, crate::proofs::Few::successors_rise, crate::proofs::ByRows::op_head_lem))]
pub fn op_head(store: &StoreWords, n: usize) -> OpHeader
    requires sound { IsSound store.now }
    requires n_bound { n < op_count (columns store.now) }
    ensures { HeadOf (store_in store.now) n result }
{
    OpHeader {
        kind: at(store, OP_KIND, n),
        regions: op_regions(store, n),
        successors: span(store, OP_SUCCESSOR_FIRST, OP_SUCCESSOR_END, n),
        operands: span(store, OP_OPERAND_FIRST, OP_OPERAND_END, n),
    }
}
