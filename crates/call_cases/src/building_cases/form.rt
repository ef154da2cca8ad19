// The recorder's form with the ring's number and the date as arguments, and with twin fields.
use crate::forms::{RING, build_form, describes};
use crate::lent::Store;
use api::building::set_operand;
use rules::types::{Attribute, Owner};

// The type of a date.
const DATE: u32 = 4;

// Attribute keys.
const CAPTION: u32 = 1;

const WIDTH: u32 = 2;

// The captions and widths of a field.
fn describe_field(store: &mut Store, n: u32) -> bool {
    let caption = Attribute {
        key: CAPTION,
        kind: 0,
        content: 70,
        inherent: false,
    };
    let width = Attribute {
        key: WIDTH,
        kind: 63,
        content: 9,
        inherent: false,
    };
    describes(store, Owner::Op(n), caption) && describes(store, Owner::Op(n), width)
}

// The whole form. The second field first reads the date and then, as its twin does, the ring's number.
pub fn build_twins(store: &mut Store) -> bool {
    build_form(store, &[RING, DATE])
        && describe_field(store, 1)
        && describe_field(store, 2)
        && set_operand(store, 2, 0, 0) == Ok(())
}

// A block takes an attribute, a key already there is replaced by an inherent one of the last kind, and an operand may be a value made
// later.
pub fn amend(store: &mut Store) -> bool {
    let mark = Attribute {
        key: CAPTION,
        kind: 1,
        content: 71,
        inherent: false,
    };
    let title = Attribute {
        key: CAPTION,
        kind: 63,
        content: 71,
        inherent: true,
    };
    describes(store, Owner::Block(0), mark)
        && describes(store, Owner::Block(0), title)
        && set_operand(store, 1, 0, 3) == Ok(())
        && set_operand(store, 1, 0, 0) == Ok(())
}
