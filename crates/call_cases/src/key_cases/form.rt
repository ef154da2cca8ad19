// The form whose keys are written, in two steps. First operation 0 with a result, value 0, and operation 1 with region 0. Then block 0 in
// that region, with two arguments, values 1 and 2, and in it operation 2, which uses value 2 and value 0 and may go on to its own block.
// Last operations 3 and 4, of which one uses value 0 and the other goes on to block 0.
use crate::forms::describes;
use crate::lent::Store;
use api::building::{new_block, new_operation};
use rules::types::{Attribute, Owner};

// The first step.
pub fn begin(store: &mut Store) -> bool {
    new_operation(store, 8, None, 1, 0, &[5], &[], &[]) == Ok(0)
        && new_operation(store, 7, None, 2, 1, &[], &[], &[]) == Ok(1)
}

// Operation 0 gets an attribute: key 2, kind 63, content 300, and inherent or not.
pub fn attribute(store: &mut Store, inherent: bool) -> bool {
    let rule = Attribute {
        key: 2,
        kind: 63,
        content: 300,
        inherent,
    };
    describes(store, Owner::Op(0), rule)
}

// The second step.
pub fn fill(store: &mut Store) -> bool {
    new_block(store, 0, 3, &[6, 7]) == Ok(0)
        && new_operation(store, 9, Some(0), 4, 0, &[5], &[2, 0], &[0]) == Ok(2)
}

// Two operations that feed the same bytes into a hash: a use of value 0, and one of block 0.
pub fn lookalikes(store: &mut Store) -> bool {
    new_operation(store, 4, None, 5, 0, &[], &[0], &[]) == Ok(3)
        && new_operation(store, 4, None, 5, 0, &[], &[], &[0]) == Ok(4)
}
