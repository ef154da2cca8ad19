// Refusals of calls, by cause. `kept` is a copy of the store.
use crate::building_cases::answers::turned_down;
use crate::building_cases::calls::{Call, make};
use crate::lent::Store;
use rules::types::{Cause, Owner};

// The call is refused by this cause, and no word of the buffer changes.
fn refuses(buffer: &mut [u32], kept: &[u32], call: Call, cause: Cause) -> bool {
    let answer = make(buffer, call);
    turned_down(answer, cause, buffer, kept)
}

// Each of the calls is refused by this cause.
fn all_refused(buffer: &mut [u32], kept: &[u32], calls: &[Call], cause: Cause) -> bool {
    calls.iter().all(|call| refuses(buffer, kept, *call, cause))
}

// Cause 1: each call turns down a buffer that is not sound, whatever else is wrong.
pub fn unsound(buffer: &mut [u32], kept: &[u32]) -> bool {
    let calls = [
        Call::Op(Some(9), 9, 0, 0, 0, 0),
        Call::Block(9, 0),
        Call::Attribute(Owner::Op(9), 1, 64),
        Call::Operand(9, 9, 99),
        Call::SetMark(9),
        Call::GoBack(9),
    ];
    all_refused(buffer, kept, &calls, Cause::NotSound)
}

// Cause 2, by a new operation of the form: no such block around it, no such operand, its own result, no such successor.
pub fn unnamed_in_operation(store: &mut Store, kept: &Store) -> bool {
    let calls = [
        Call::Op(Some(1), 0, 0, 0, 0, 0),
        Call::Op(Some(4294967295), 0, 0, 0, 0, 0),
        Call::Op(Some(0), 0, 4, 0, 1, 0),
        Call::Op(Some(0), 0, 4, 1, 1, 0),
        Call::Op(Some(0), 0, 4, 0, 0, 1),
    ];
    all_refused(store, kept, &calls, Cause::NotThere)
}

// Cause 2, by the other calls: no such region, owner, operation, value.
pub fn unnamed_elsewhere(store: &mut Store, kept: &Store) -> bool {
    let calls = [
        Call::Block(1, 0),
        Call::Attribute(Owner::Op(3), 1, 0),
        Call::Attribute(Owner::Block(1), 1, 0),
        Call::Operand(3, 0, 0),
        Call::Operand(1, 0, 4),
    ];
    all_refused(store, kept, &calls, Cause::NotThere)
}

// Cause 4: 9 regions, 17 results, 17 operands, 9 successors, 17 arguments.
pub fn too_many(store: &mut Store, kept: &Store) -> bool {
    let calls = [
        Call::Op(Some(0), 9, 0, 0, 0, 0),
        Call::Op(Some(0), 0, 0, 17, 0, 0),
        Call::Op(Some(0), 0, 0, 0, 17, 0),
        Call::Op(Some(0), 0, 0, 0, 0, 9),
        Call::Block(0, 17),
    ];
    all_refused(store, kept, &calls, Cause::OwnerFull)
}

// Cause 6: attribute kind 64, inherent or not.
pub fn unknown_kind(store: &mut Store, kept: &Store) -> bool {
    let calls = [
        Call::Attribute(Owner::Op(1), 1, 64),
        Call::Attribute(Owner::Block(0), 1, 64),
        Call::Inherent(Owner::Op(1), 1, 64),
    ];
    all_refused(store, kept, &calls, Cause::UnknownKind)
}

// Cause 7: operation 1 has one operand, operation 0 none.
pub fn no_such_operand(store: &mut Store, kept: &Store) -> bool {
    let calls = [Call::Operand(1, 1, 0), Call::Operand(0, 0, 0)];
    all_refused(store, kept, &calls, Cause::NoOperand)
}

// Cause 16: marks are 1 to 8, and mark 1 is not set.
pub fn no_such_mark(store: &mut Store, kept: &Store) -> bool {
    let calls = [
        Call::SetMark(0),
        Call::SetMark(9),
        Call::GoBack(0),
        Call::GoBack(1),
    ];
    all_refused(store, kept, &calls, Cause::NoMark)
}

// Several causes at once: 6 before 2, 2 before 7, 2 before 4.
pub fn first_cause(store: &mut Store, kept: &Store) -> bool {
    let calls = [
        Call::Operand(1, 1, 4),
        Call::Op(None, 9, 4, 0, 17, 0),
        Call::Block(1, 17),
    ];
    let kind = Call::Attribute(Owner::Op(3), 1, 64);
    refuses(store, kept, kind, Cause::UnknownKind)
        && all_refused(store, kept, &calls, Cause::NotThere)
}

// On a store with block 32 at nesting 32: 4 before 5. In block 31 there is room.
pub fn wide_before_deep(store: &mut Store, kept: &Store) -> bool {
    let wide = Call::Op(Some(32), 9, 0, 0, 0, 0);
    refuses(store, kept, wide, Cause::OwnerFull)
        && make(store, Call::Op(Some(31), 0, 0, 0, 0, 0)) == Ok(Some(33))
}
