// A form for a bird-ring recorder, as far as parts have it in common: operation 0 holds region 0, in it block 0 with two arguments, values
// 0 and 1, and in the block two fields. Operation 1 reads value 0 and gives value 2, operation 2 reads value 1 and gives value 3.
use crate::lent::Store;
use api::building::{new_block, new_operation, set_attribute};
use rules::types::{Attribute, Owner};

const FORM: u32 = 7;

const FIELD: u32 = 8;

const MARK: u32 = 5;

// The type of a ring's number.
pub const RING: u32 = 3;

fn build_frame(store: &mut Store, arguments: &[u32]) -> bool {
    new_operation(store, FORM, None, 1, 1, &[], &[], &[]) == Ok(0)
        && new_block(store, 0, 2, arguments) == Ok(0)
}

fn build_field(store: &mut Store, value: u32, n: u32) -> bool {
    new_operation(store, FIELD, Some(0), 3, 0, &[MARK], &[value], &[]) == Ok(n)
}

// The form, built in an empty store with arguments of these types.
pub fn build_form(store: &mut Store, arguments: &[u32]) -> bool {
    build_frame(store, arguments) && build_field(store, 0, 1) && build_field(store, 1, 2)
}

// An attribute is accepted.
pub fn describes(store: &mut Store, owner: Owner, attribute: Attribute) -> bool {
    set_attribute(store, owner, attribute) == Ok(())
}
