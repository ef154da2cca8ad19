// The offered calls as data, for calls that are to be refused or repeated. Each list of a call is one word, repeated.
use crate::building_cases::answers::Answer;
use api::building::{go_back, new_block, new_operation, set_attribute, set_mark, set_operand};
use rules::types::{Attribute, Cause, Owner};

// A call.
#[derive(Clone, Copy)]
pub enum Call {
    // A new operation: its parent and number of regions; a word, and how often it stands in the lists of results, operands and successors.
    Op(Option<u32>, u32, u32, usize, usize, usize),
    // A new block: its region and number of arguments.
    Block(u32, usize),
    // An owner, a key and a kind; and the same of an inherent attribute.
    Attribute(Owner, u32, u32),
    Inherent(Owner, u32, u32),
    // An operation, an index and a value.
    Operand(u32, u32, u32),
    // A mark set, and one gone back to.
    SetMark(u32),
    GoBack(u32),
}

// The longest list of a call: one word more than any list may have.
const MOST: usize = 17;

// The first n words, or all where there are fewer.
fn first(words: &[u32], n: usize) -> &[u32] {
    &words[..n.min(words.len())]
}

// The answer of a call that makes nothing.
fn done(outcome: Result<(), Cause>) -> Answer {
    outcome?;
    Ok(None)
}

fn operation(
    store: &mut [u32],
    parent: Option<u32>,
    regions: u32,
    word: u32,
    results: usize,
    operands: usize,
    successors: usize,
) -> Answer {
    let words = [word; MOST];
    let n = new_operation(
        store,
        7,
        parent,
        1,
        regions,
        first(&words, results),
        first(&words, operands),
        first(&words, successors),
    )?;
    Ok(Some(n))
}

fn block(store: &mut [u32], region: u32, arguments: usize) -> Answer {
    let words = [0; MOST];
    let n = new_block(store, region, 2, first(&words, arguments))?;
    Ok(Some(n))
}

fn attribute(store: &mut [u32], owner: Owner, key: u32, kind: u32, inherent: bool) -> Answer {
    let attribute = Attribute {
        key,
        kind,
        content: 0,
        inherent,
    };
    done(set_attribute(store, owner, attribute))
}

// What the call answers.
pub fn make(store: &mut [u32], call: Call) -> Answer {
    match call {
        Call::Op(parent, regions, word, results, operands, successors) => {
            operation(store, parent, regions, word, results, operands, successors)
        }
        Call::Block(region, arguments) => block(store, region, arguments),
        Call::Attribute(owner, key, kind) => attribute(store, owner, key, kind, false),
        Call::Inherent(owner, key, kind) => attribute(store, owner, key, kind, true),
        Call::Operand(n, index, value) => done(set_operand(store, n, index, value)),
        Call::SetMark(mark) => done(set_mark(store, mark)),
        Call::GoBack(mark) => done(go_back(store, mark)),
    }
}
