// The tests of a new operation, on a sound buffer.
ghost use Rattle.std.specs.Prelude.{◌≡◌, true, List, ℕ, Some};
ghost use Rattle.rules.specs.Store.{parent_exists, nesting_holds, block_exists};
ghost use Rattle.rules.specs.Building.{operation_names, operation_fits, operation_room};
ghost use Rattle.layout.specs.Reading.{store_in};
ghost use Rattle.layout.specs.Columns.{columns};
ghost use Rattle.layout.specs.Soundness.{IsSound, Arranged};
ghost use Rattle.mutation.specs.Types.{operation_of};
ghost use Rattle.mutation.specs.AddedWrites.{depth_under};

use crate::types::OpFields;
use layout::children::op_around;
use layout::columns::{
    BLOCKS, COUNTS, OP_DEPTH, OPERANDS, OPS, REGIONS, SUCCESSORS, StoreWords, VALUES, at, number,
};
use layout::existing::block_exists;
use layout::lists::all_below;
use rules::limits::{
    MAX_NESTING, MAX_OPERANDS, MAX_OPS, MAX_OWN_OPERANDS, MAX_OWN_REGIONS, MAX_OWN_SUCCESSORS,
    MAX_OWN_VALUES, MAX_REGIONS, MAX_SUCCESSORS, MAX_VALUES,
};

// The parent, if there is one, exists.
#[tactic(auto, unfolding(rules::specs::Store::parent_exists))]
pub fn parent_exists(store: &StoreWords, parent: Option<u32>) -> bool
    requires { IsSound store.now }
    ensures { result ≡ parent_exists (store_in store.now) parent }
{
    match parent {
        None => true,
        Some(b) => block_exists(store, b),
    }
}

// Everything that a new operation names exists.
pub fn operation_names(
    store: &StoreWords,
    fields: OpFields,
    operands: &[u32],
    successors: &[u32],
) -> bool
    requires { IsSound store.now }
    ensures { (types : List ℕ) → result ≡ operation_names (store_in store.now) (operation_of fields types operands.now successors.now) }
{
    parent_exists(store, fields.parent)
        && all_below(operands, at(store, COUNTS, VALUES))
        && all_below(successors, at(store, COUNTS, BLOCKS))
}

// Its lists and regions are within the limits of one owner.
#[tactic(auto, unfolding(rules::specs::Building::operation_fits, rules::specs::Lists::every))]
pub fn operation_fits(fields: OpFields, types: &[u32], operands: &[u32], successors: &[u32]) -> bool
    ensures { result ≡ operation_fits (operation_of fields types.now operands.now successors.now) }
{
    fields.regions <= MAX_OWN_REGIONS
        && types.len() <= MAX_OWN_VALUES
        && operands.len() <= MAX_OWN_OPERANDS
        && successors.len() <= MAX_OWN_SUCCESSORS
}

// The nesting of an operation in block b.
#[tactic(auto, using(crate::proofs::Operating::in_block, layout::proofs::Laid::laid_facts))]
fn depth_in(store: &StoreWords, b: usize) -> u32
    requires arranged { Arranged store.now }
    requires b_value { block_exists (store_in store.now) b ≡ true }
    ensures { result ≡ depth_under (columns store.now) (Some b) }
{
    at(store, OP_DEPTH, op_around(store, b)) + 1
}

// The nesting of an operation with this parent.
#[tactic(auto, unfolding(rules::specs::Store::parent_exists, crate::specs::AddedWrites::depth_under))]
pub fn depth_under(store: &StoreWords, parent: Option<u32>) -> u32
    requires arranged { Arranged store.now }
    requires parent_value { parent_exists (store_in store.now) parent ≡ true }
    ensures { result ≡ depth_under (columns store.now) parent }
{
    match parent {
        None => 0,
        Some(b) => depth_in(store, b as usize),
    }
}

// The nesting of an operation with this parent is at most 32.
pub fn nesting_holds(store: &StoreWords, parent: Option<u32>) -> bool
    requires sound { IsSound store.now }
    requires parent_value { parent_exists (store_in store.now) parent ≡ true }
    ensures { result ≡ nesting_holds (store_in store.now) parent }
{
    depth_under(store, parent) as usize <= MAX_NESTING
}

// The store has room for a new operation: no total is passed by it.
pub fn operation_room(
    store: &StoreWords,
    fields: OpFields,
    types: &[u32],
    operands: &[u32],
    successors: &[u32],
) -> bool
    requires sound { IsSound store.now }
    requires successors_value { operation_fits (operation_of fields types.now operands.now successors.now) ≡ true }
    ensures { result ≡ operation_room (store_in store.now) (operation_of fields types.now operands.now successors.now) }
{
    number(store, COUNTS, OPS) < MAX_OPS
        && number(store, COUNTS, REGIONS) + fields.regions as usize <= MAX_REGIONS
        && number(store, COUNTS, VALUES) + types.len() <= MAX_VALUES
        && number(store, COUNTS, OPERANDS) + operands.len() <= MAX_OPERANDS
        && number(store, COUNTS, SUCCESSORS) + successors.len() <= MAX_SUCCESSORS
}
