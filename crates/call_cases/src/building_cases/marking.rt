// Marks on a finished form, whose operation 1 has an operand: what going back gives again, and what is remembered.
use crate::building_cases::calls::{Call, make};
use crate::building_cases::limits::{fill, stops};
use crate::building_cases::steps::FillStep;
use crate::lent::Store;
use rules::types::{Cause, Owner};
use validation::lent::is_sound;

fn takes(store: &mut Store, call: Call) -> bool {
    make(store, call) == Ok(None)
}

// Operation 3, an operand set and a key that comes new and is replaced, at last by an inherent attribute.
fn change(store: &mut Store) -> bool {
    make(store, Call::Op(Some(0), 0, 3, 1, 0, 0)) == Ok(Some(3))
        && takes(store, Call::Operand(1, 0, 4))
        && takes(store, Call::Attribute(Owner::Op(1), 77, 2))
        && takes(store, Call::Attribute(Owner::Op(1), 77, 3))
        && takes(store, Call::Inherent(Owner::Op(1), 77, 63))
}

// Going back and back again: numbers are given again, and the mark that was set after the one gone back to is void.
pub fn gone_back(store: &mut Store) -> bool {
    takes(store, Call::SetMark(1))
        && takes(store, Call::SetMark(2))
        && change(store)
        && takes(store, Call::GoBack(2))
        && change(store)
        && takes(store, Call::GoBack(1))
        && !takes(store, Call::GoBack(2))
        && change(store)
        && is_sound(store)
}

// Cause 17: 1,024 replacements are remembered, and no more, while a new key is accepted. Going back makes room.
pub fn remembered(store: &mut Store) -> bool {
    takes(store, Call::GoBack(1))
        && fill(store, FillStep::Operand(1), 0, 1024)
        && stops(store, FillStep::Operand(1), 0, Cause::JournalFull)
        && takes(store, Call::Attribute(Owner::Op(1), 77, 2))
        && is_sound(store)
        && takes(store, Call::GoBack(1))
        && fill(store, FillStep::Operand(1), 0, 1)
}
