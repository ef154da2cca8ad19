// Stores filled to a limit, where the next step is refused.
use crate::building_cases::answers::{Answer, turned_down};
use crate::building_cases::calls::{Call, make};
use crate::building_cases::refusals::wide_before_deep;
use crate::building_cases::steps::{FillStep, take};
use crate::lent::Store;
use layout::columns::STORE_LENGTH;
use rules::types::{Cause, Owner};
use validation::lent::is_sound;

// 8 regions, 16 results, 16 operands and 8 successors are accepted, and so are 16 arguments.
pub fn full_lists(store: &mut Store) -> bool {
    make(store, Call::Op(Some(0), 8, 0, 16, 16, 8)) == Ok(Some(3))
        && make(store, Call::Block(8, 16)) == Ok(Some(1))
}

// The answer is that of step i where it is accepted.
fn taken(step: FillStep, answer: Answer, i: u32) -> bool {
    match step {
        FillStep::Key(_) | FillStep::Keys | FillStep::Operand(_) => answer == Ok(None),
        _ => answer == Ok(Some(i)),
    }
}

// The steps from `from` up to `end`, all accepted.
pub fn fill(store: &mut Store, step: FillStep, from: u32, end: u32) -> bool {
    (from..end).all(|i| taken(step, take(store, step, i), i))
}

// Step i is refused by this cause, and no word of the store changes.
pub fn stops(store: &mut Store, step: FillStep, i: u32, cause: Cause) -> bool {
    let kept = *store;
    let answer = take(store, step, i);
    turned_down(answer, cause, store, &kept)
}

// Cause 4: eight keys of an owner, a ninth, and one of the eight replaced.
pub fn keys(store: &mut Store, owner: Owner) -> bool {
    fill(store, FillStep::Key(owner), 0, 8)
        && stops(store, FillStep::Key(owner), 8, Cause::OwnerFull)
        && fill(store, FillStep::Key(owner), 7, 8)
}

// Cause 5: nesting 32 is accepted and nesting 33 refused.
pub fn nesting() -> bool {
    let mut store: Store = [0; STORE_LENGTH];
    if !fill(&mut store, FillStep::Level, 0, 33) {
        return false;
    }
    if !stops(&mut store, FillStep::Level, 33, Cause::TooDeep) {
        return false;
    }
    let kept = store;
    wide_before_deep(&mut store, &kept) && is_sound(&store)
}

// Cause 3, by the totals of regions, values and blocks: 256, 2,048 and 256. A region that doesn't exist is still cause 2.
fn fill_blocks(store: &mut Store) -> bool {
    fill(store, FillStep::Operation(8, 0, 0, 0), 0, 32)
        && stops(store, FillStep::Operation(1, 0, 0, 0), 32, Cause::StoreFull)
        && fill(store, FillStep::Block(16), 0, 128)
        && stops(store, FillStep::Block(1), 128, Cause::StoreFull)
        && stops(store, FillStep::Operation(0, 1, 0, 0), 32, Cause::StoreFull)
        && fill(store, FillStep::Block(0), 128, 256)
        && stops(store, FillStep::Block(0), 0, Cause::StoreFull)
        && stops(store, FillStep::Block(0), 256, Cause::NotThere)
}

// Cause 3, by the totals of operands and successors: 2,048 and 512.
fn fill_names(store: &mut Store) -> bool {
    fill(store, FillStep::Operation(0, 0, 16, 0), 32, 160)
        && stops(
            store,
            FillStep::Operation(0, 0, 1, 0),
            160,
            Cause::StoreFull,
        )
        && fill(store, FillStep::Operation(0, 0, 0, 8), 160, 224)
        && stops(
            store,
            FillStep::Operation(0, 0, 0, 1),
            224,
            Cause::StoreFull,
        )
}

// Cause 3, by the totals of attributes and operations: 1,024 and 512. A ninth key and nine regions are
// still cause 4, and a key already there is replaced.
fn fill_rest(store: &mut Store) -> bool {
    fill(store, FillStep::Keys, 0, 1024)
        && stops(store, FillStep::Keys, 1024, Cause::StoreFull)
        && stops(store, FillStep::Key(Owner::Op(0)), 8, Cause::OwnerFull)
        && fill(store, FillStep::Keys, 1023, 1024)
        && fill(store, FillStep::Operation(0, 0, 0, 0), 224, 512)
        && stops(
            store,
            FillStep::Operation(0, 0, 0, 0),
            512,
            Cause::StoreFull,
        )
        && stops(
            store,
            FillStep::Operation(9, 0, 0, 0),
            512,
            Cause::OwnerFull,
        )
}

// Every total filled, one after the other, and the full store is sound.
pub fn totals() -> bool {
    let mut store: Store = [0; STORE_LENGTH];
    fill_blocks(&mut store) && fill_names(&mut store) && fill_rest(&mut store) && is_sound(&store)
}
