// Key calls of the form's first step that are refused, and such as are accepted at a limit.
use crate::key_cases::writing::{KEPT, answer_line, key_line};
use crate::lent::{NOTHING, Store};
use api::fragment_keys::operation_key;
use rules::types::Sort;
use std::io;

// As many bytes as operation 0's key has.
const EXACT: usize = 52;

// Bytes as long as operation 0's key, and one less.
pub fn lengths(rt: &impl Print, store: &Store) -> io::Result<()> {
    let mut same = [KEPT; EXACT];
    let answer = operation_key(store, &[], &mut same, 0, NOTHING);
    answer_line(rt, "exact length", answer, &same)?;
    let mut less = [KEPT; EXACT - 1];
    let refused = operation_key(store, &[], &mut less, 0, NOTHING);
    answer_line(rt, "one byte less", refused, &less)
}

// Operation 0, whose result has type 5, under a list of renamed types.
fn under(rt: &impl Print, name: &str, store: &Store, types: &[u32]) -> io::Result<()> {
    let mut key = [KEPT; EXACT];
    let answer = operation_key(store, types, &mut key, 0, NOTHING);
    answer_line(rt, name, answer, &key)
}

// Lists of renamed types, of which the last two are refused.
pub fn lists(rt: &impl Print, store: &Store) -> io::Result<()> {
    under(rt, "type 5 renamed to 300", store, &[6, 7, 5, 300])?;
    under(rt, "other types renamed", store, &[6, 5, 8, 9])?;
    under(rt, "a chain of types", store, &[5, 300, 300, 7])?;
    under(rt, "half a row", store, &[5])
}

// Fragments that are not there, and a buffer that is no store.
pub fn absent(rt: &impl Print, store: &Store) -> io::Result<()> {
    key_line(rt, "no such operation", store, Sort::Op, 2, NOTHING)?;
    key_line(rt, "no such region", store, Sort::Region, 1, NOTHING)?;
    let short = [0; 4];
    let mut less = [KEPT; EXACT - 1];
    let answer = operation_key(&short, &[5], &mut less, 0, NOTHING);
    answer_line(rt, "no store", answer, &less)
}
