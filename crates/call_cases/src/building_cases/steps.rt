// Steps that fill a store, one call or two each. Step i makes operation i or block i, or sets key i or an operand.
use crate::building_cases::answers::Answer;
use crate::building_cases::calls::{Call, make};
use rules::types::Owner;

// A step, without its number i.
#[derive(Clone, Copy)]
pub enum FillStep {
    // Operation i with a region, in the block of the operation before, and block i in that region.
    Level,
    // An operation outside every block, with so many regions, results, operands and successors.
    Operation(u32, usize, usize, usize),
    // A block in region i with so many arguments.
    Block(usize),
    // Key i of an owner.
    Key(Owner),
    // The next key, where each operation in turn gets eight.
    Keys,
    // The first operand of an operation, set to value 0.
    Operand(u32),
}

// Level 0 stands in no block, and level i in that of the level before.
fn level(store: &mut [u32], i: u32) -> Answer {
    let answer = make(store, Call::Op(i.checked_sub(1), 1, 0, 0, 0, 0))?;
    if answer != Some(i) {
        return Ok(answer);
    }
    make(store, Call::Block(i, 0))
}

// The answer of step i.
pub fn take(store: &mut [u32], step: FillStep, i: u32) -> Answer {
    match step {
        FillStep::Level => level(store, i),
        FillStep::Operation(regions, results, operands, successors) => {
            make(
                store,
                Call::Op(None, regions, 0, results, operands, successors),
            )
        }
        FillStep::Block(arguments) => make(store, Call::Block(i, arguments)),
        FillStep::Key(owner) => make(store, Call::Attribute(owner, i, 2)),
        FillStep::Keys => make(store, Call::Attribute(Owner::Op(i / 8), i % 8, 2)),
        FillStep::Operand(n) => make(store, Call::Operand(n, 0, 0)),
    }
}
