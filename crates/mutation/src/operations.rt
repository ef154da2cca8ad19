// The call that adds an operation.
ghost use Rattle.std.specs.Prelude.{◌≡◌, true, ◌+◌, ◌<◌, ◌≤◌, length};
ghost use Rattle.rules.specs.Store.{parent_exists};
ghost use Rattle.rules.specs.Building.{new_operation, tests, first_failed};
ghost use Rattle.layout.specs.Reading.{store_in};
ghost use Rattle.layout.specs.Columns.{buffer_length, columns, op_kind};
ghost use Rattle.layout.specs.Soundness.{IsSound, Arranged};
ghost use Rattle.mutation.specs.Types.{operation_of, made_of};
ghost use Rattle.rules.specs.Causes.{cause_of};
ghost use Rattle.mutation.specs.AddedWrites.{OpRoom, ParentBelow, parent_code, depth_under, op_row, op_placed, op_written, with_operation, with_row};
ghost use Rattle.mutation.specs.Doing.{Performs};

use crate::tests::{depth_under, nesting_holds, operation_fits, operation_names, operation_room};
use crate::types::OpFields;
use crate::writes::{place_child, put_regions, put_slice, put_values};
use layout::columns::{
    COUNTS, OP_ATTRIBUTES, OP_DEPTH, OP_KIND, OP_LOCATION, OP_OPERAND_END, OP_OPERAND_FIRST,
    OP_PARENT, OP_REGION_END, OP_REGION_FIRST, OP_RESULT_END, OP_RESULT_FIRST, OP_SUCCESSOR_END,
    OP_SUCCESSOR_FIRST, OPERAND_WORDS, OPERANDS, OPS, REGIONS, SUCCESSOR_WORDS, SUCCESSORS,
    StoreWords, VALUES, at, number, put,
};
use layout::families::OPS_IN_BLOCKS;
use rules::types::Cause;

// How many regions, results, operands and successors a new operation has.
#[derive(Clone, Copy, PartialEq, Eq, Debug)]
struct Sizes {
    regions: usize,
    results: usize,
    operands: usize,
    successors: usize,
}

// The cause for which the call is refused, if there is one.
fn operation_cause(
    store: &StoreWords,
    fields: OpFields,
    types: &[u32],
    operands: &[u32],
    successors: &[u32],
) -> Result<(), Cause>
    requires { IsSound store.now }
    ensures { cause_of result ≡ first_failed (tests (store_in store.now) (new_operation (operation_of fields types.now operands.now successors.now))) }
{
    if !operation_names(store, fields, operands, successors) {
        return Err(Cause::NotThere);
    }
    if !operation_fits(fields, types, operands, successors) {
        return Err(Cause::OwnerFull);
    }
    if !nesting_holds(store, fields.parent) {
        return Err(Cause::TooDeep);
    }
    if !operation_room(store, fields, types, operands, successors) {
        return Err(Cause::StoreFull);
    }
    Ok(())
}

// Operation n goes to the end of its block's range, if it has a block, and the one before it is linked to it.
#[tactic(auto, unfolding(crate::specs::AddedWrites::ParentBelow, crate::specs::AddedWrites::op_placed))]
fn place_op(store: &mut StoreWords, parent: Option<u32>, n: usize)
    requires parent_below { ParentBelow 256 parent }
    requires n_bound { n < 512 }
    ensures { columns store.new ≡ op_placed (columns store.old) parent n }
{
    if let Some(b) = parent {
        place_child(store, OPS_IN_BLOCKS, b as usize, n);
    }
}

// A parent as a word of the store: 0 for none, else the block's number and one.
#[tactic(auto, unfolding(crate::specs::AddedWrites::ParentBelow, crate::specs::AddedWrites::parent_code))]
fn parent_word(parent: Option<u32>) -> u32
    requires { ParentBelow 256 parent }
    ensures { result ≡ parent_code parent }
{
    match parent {
        None => 0,
        Some(b) => b + 1,
    }
}

// The words of a new operation's row: its regions and results are the next of the store, its operands and successors the next of the shared
// lists, and it has no attributes yet.
#[tactic(auto, unfolding(layout::specs::Reading::region_count, layout::specs::Reading::value_count, layout::specs::Reading::operand_count, layout::specs::Reading::successor_count))]
fn op_row(store: &StoreWords, fields: OpFields, sizes: Sizes) -> [u32; 13]
    requires arranged { Arranged store.now }
    requires parent_value { parent_exists (store_in store.now) fields.parent ≡ true }
    requires op_room { OpRoom (columns store.now) sizes.regions sizes.results sizes.operands sizes.successors }
    ensures { result ≡ op_row (columns store.now) fields.kind (parent_code fields.parent) fields.location (depth_under (columns store.now) fields.parent) sizes.regions sizes.results sizes.operands sizes.successors }
{
    let parent = parent_word(fields.parent);
    let depth = depth_under(store, fields.parent);
    let region = number(store, COUNTS, REGIONS);
    let value = number(store, COUNTS, VALUES);
    let operand = number(store, COUNTS, OPERANDS);
    let successor = number(store, COUNTS, SUCCESSORS);
    [
        fields.kind,
        parent,
        fields.location,
        depth,
        region as u32,
        (region + sizes.regions) as u32,
        value as u32,
        (value + sizes.results) as u32,
        operand as u32,
        (operand + sizes.operands) as u32,
        successor as u32,
        (successor + sizes.successors) as u32,
        0,
    ]
}

// Writes an operation's row, as `put_row` does. (By constant columns: a loop over as many finds each of them anew, and takes twice as long.)
#[inline(always)]
fn put_op_row(store: &mut StoreWords, n: usize, row: &[u32; 13])
    requires { n < 512 }
    ensures { columns store.new ≡ with_row (columns store.old) op_kind n row.now }
{
    put(store, OP_KIND, n, row[0]);
    put(store, OP_PARENT, n, row[1]);
    put(store, OP_LOCATION, n, row[2]);
    put(store, OP_DEPTH, n, row[3]);
    put(store, OP_REGION_FIRST, n, row[4]);
    put(store, OP_REGION_END, n, row[5]);
    put(store, OP_RESULT_FIRST, n, row[6]);
    put(store, OP_RESULT_END, n, row[7]);
    put(store, OP_OPERAND_FIRST, n, row[8]);
    put(store, OP_OPERAND_END, n, row[9]);
    put(store, OP_SUCCESSOR_FIRST, n, row[10]);
    put(store, OP_SUCCESSOR_END, n, row[11]);
    put(store, OP_ATTRIBUTES, n, row[12]);
}

// Writes a new operation's row, and its number into its block's range.
#[tactic(auto, unfolding(layout::specs::Reading::op_count))]
fn put_op(store: &mut StoreWords, fields: OpFields, sizes: Sizes)
    requires arranged { Arranged store.old }
    requires parent_value { parent_exists (store_in store.old) fields.parent ≡ true }
    requires op_room { OpRoom (columns store.old) sizes.regions sizes.results sizes.operands sizes.successors }
    ensures { columns store.new ≡ op_written (columns store.old) fields.kind fields.parent fields.location sizes.regions sizes.results sizes.operands sizes.successors }
{
    let n = number(store, COUNTS, OPS);
    let row = op_row(store, fields, sizes);
    put_op_row(store, n, &row);
    place_op(store, fields.parent, n);
}

// Writes all of a new operation: its row, its regions, its results, its operands and successors, and the count of operations. What is named
// need not be there yet.
#[tactic(auto, unfolding(layout::specs::Reading::op_count))]
pub fn put_operation(
    store: &mut StoreWords,
    fields: OpFields,
    types: &[u32],
    operands: &[u32],
    successors: &[u32],
)
    requires arranged { Arranged store.old }
    requires parent_value { parent_exists (store_in store.old) fields.parent ≡ true }
    requires op_room { OpRoom (columns store.old) fields.regions (length types.now) (length operands.now) (length successors.now) }
    ensures { columns store.new ≡ with_operation (columns store.old) (operation_of fields types.now operands.now successors.now) }
{
    let n = number(store, COUNTS, OPS);
    let sizes = Sizes {
        regions: fields.regions as usize,
        results: types.len(),
        operands: operands.len(),
        successors: successors.len(),
    };
    put_op(store, fields, sizes);
    put_regions(store, n, sizes.regions);
    put_values(store, (2 * n) as u32, types);
    put_slice(store, OPERAND_WORDS, OPERANDS, operands);
    put_slice(store, SUCCESSOR_WORDS, SUCCESSORS, successors);
    put(store, COUNTS, OPS, (n + 1) as u32);
}

// The call, on a sound buffer. Its lists stand beside its fields, as the interface lends them.
pub fn new_operation(
    store: &mut StoreWords,
    fields: OpFields,
    types: &[u32],
    operands: &[u32],
    successors: &[u32],
) -> Result<u32, Cause>
    requires { IsSound store.old }
    ensures { Performs store.old store.new (new_operation (operation_of fields types.now operands.now successors.now)) (made_of result) }
{
    operation_cause(store, fields, types, operands, successors)?;
    let n = at(store, COUNTS, OPS);
    put_operation(store, fields, types, operands, successors);
    Ok(n)
}
