// What the entries of a lent mapping do, and which are there afterwards.
use crate::lent::{Mapping, NOTHING, Store};
use api::equality::operation_eq;
use equivalence::mapping::{MAPPING_LENGTH, NO_IMAGE, OP_ENTRIES};
use equivalence::verdicts::Unequal;

// The fields are compared with these entries of value 0 and of the first field's result. Twins or not, they are entered: their results,
// and the operations.
fn fields(store: &Store, value_image: u32, result_image: u32, twins: bool) -> bool {
    let mut mapping: Mapping = [NO_IMAGE; MAPPING_LENGTH];
    mapping[0] = value_image;
    mapping[2] = result_image;
    let mut after = mapping;
    after[2] = 3;
    after[OP_ENTRIES + 1] = 2;
    let expected = if twins {
        Ok(1)
    } else {
        Err(Unequal::FirstNEQOps(1, 2, 1))
    };
    operation_eq(store, &[], &mut mapping, 1, 2, NOTHING) == Ok(expected) && mapping == after
}

// The fields read different values.
pub fn none(store: &Store) -> bool {
    fields(store, NO_IMAGE, NO_IMAGE, false)
}

// With the first field's value mapped to the second's, the fields are twins.
pub fn used(store: &Store) -> bool {
    fields(store, 1, NO_IMAGE, true)
}

// An entry of the first field's result gives way to the one that pairing makes.
pub fn replaced(store: &Store) -> bool {
    fields(store, 1, 0, true)
}

// A form and a field differ at once: nothing is entered, and what was lent stays.
pub fn stay(store: &Store) -> bool {
    let mut mapping: Mapping = [NO_IMAGE; MAPPING_LENGTH];
    mapping[0] = 1;
    let lent = mapping;
    let differ = Unequal::FirstNEQOps(0, 1, 0);
    operation_eq(store, &[], &mut mapping, 0, 1, NOTHING) == Ok(Err(differ)) && mapping == lent
}
