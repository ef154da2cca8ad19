// Keys: small fragments whose keys were written down by hand from the rules' words, how large they are, what stays of lent bytes, the
// causes, and the order of keys.
mod comparing;
mod form;
mod measuring;
mod refusals;
mod writing;

use crate::key_cases::writing::key_line;
use crate::lent::{NOTHING, Store};
use layout::columns::STORE_LENGTH;
use rules::types::{Ignore, Sort};
use std::io;

// Locations are ignored.
const UNLOCATED: Ignore = Ignore {
    locations: true,
    bits: 0,
};

// Attributes of kind 63 are ignored.
const UNRULED: Ignore = Ignore {
    locations: false,
    bits: 1 << 63,
};

// A step of the form is seen if it fails.
fn built(rt: &impl Print, holds: bool) -> io::Result<()> {
    if !holds {
        println!(rt; "NOT BUILT")?;
    }
    Ok(())
}

// Operations and a region with nothing inside.
fn begun(rt: &impl Print, store: &Store) -> io::Result<()> {
    key_line(rt, "operation", store, Sort::Op, 0, NOTHING)?;
    key_line(rt, "without location", store, Sort::Op, 0, UNLOCATED)?;
    key_line(rt, "operation with a region", store, Sort::Op, 1, NOTHING)?;
    key_line(rt, "region without blocks", store, Sort::Region, 0, NOTHING)?;
    refusals::lengths(rt, store)?;
    refusals::lists(rt, store)?;
    refusals::absent(rt, store)?;
    measuring::smallest(rt, store)
}

// An attribute, first inherent and then not.
fn attributed(rt: &impl Print, store: &mut Store) -> io::Result<()> {
    built(rt, form::attribute(store, true))?;
    key_line(rt, "inherent attribute", store, Sort::Op, 0, NOTHING)?;
    key_line(rt, "not ignored", store, Sort::Op, 0, UNRULED)?;
    built(rt, form::attribute(store, false))?;
    key_line(rt, "attribute", store, Sort::Op, 0, NOTHING)?;
    key_line(rt, "attribute ignored", store, Sort::Op, 0, UNRULED)
}

// A block with an operation inside.
fn filled(rt: &impl Print, store: &Store) -> io::Result<()> {
    key_line(rt, "block", store, Sort::Block, 0, NOTHING)?;
    key_line(rt, "its region", store, Sort::Region, 0, NOTHING)?;
    measuring::filled(rt, store)
}

// Two operations of one hash.
fn lookalikes(rt: &impl Print, store: &Store) -> io::Result<()> {
    key_line(rt, "a value used", store, Sort::Op, 3, NOTHING)?;
    key_line(rt, "a block used", store, Sort::Op, 4, NOTHING)?;
    comparing::lookalikes(rt, store)
}

// All cases of this part, as the form grows.
pub fn run(rt: &impl Print) -> io::Result<()> {
    let mut store: Store = [0; STORE_LENGTH];
    built(rt, form::begin(&mut store))?;
    begun(rt, &store)?;
    attributed(rt, &mut store)?;
    built(rt, form::fill(&mut store))?;
    filled(rt, &store)?;
    built(rt, form::lookalikes(&mut store))?;
    lookalikes(rt, &store)?;
    comparing::orders(rt)
}
