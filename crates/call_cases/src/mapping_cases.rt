// Comparisons with a mapping and a list of renamed types that the caller lends: what entries do, what stays in a mapping, and causes 8 and
// 14.
mod entries;
mod refusals;

use crate::forms::{RING, build_form};
use crate::lent::Store;
use crate::verdicts::say;
use layout::columns::STORE_LENGTH;
use std::io;

// What entries do, and which are there afterwards.
fn entry_cases(rt: &impl Print, store: &Store) -> io::Result<()> {
    say(rt, "no entry", entries::none(store))?;
    say(rt, "an entry that makes twins", entries::used(store))?;
    say(rt, "an entry that is replaced", entries::replaced(store))?;
    say(rt, "entries that stay", entries::stay(store))
}

// What may be lent, and what is refused.
fn refusal_cases(rt: &impl Print, store: &Store) -> io::Result<()> {
    say(rt, "cause 8, length", refusals::lengths(store))?;
    say(rt, "cause 8, left numbers", refusals::left_numbers(store))?;
    say(rt, "cause 8, images", refusals::images(store))?;
    say(
        rt,
        "the last entries that are allowed",
        refusals::allowed(store),
    )?;
    say(rt, "cause 14", refusals::lists(store))?;
    say(rt, "several causes at once", refusals::first_cause(store))
}

// All cases of this part, on one form.
pub fn run(rt: &impl Print) -> io::Result<()> {
    let mut store: Store = [0; STORE_LENGTH];
    say(rt, "form", build_form(&mut store, &[RING; 2]))?;
    entry_cases(rt, &store)?;
    refusal_cases(rt, &store)
}
