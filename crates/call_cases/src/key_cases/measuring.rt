// What a call for an extent answers, as a line: the five numbers, or the cause.
use crate::lent::{NOTHING, Store};
use api::extents::{basic_block_extent, operation_extent, region_extent};
use keys::types::Extent;
use rules::types::{Cause, Sort};
use std::io;

fn measure(store: &Store, sort: Sort, n: u32) -> Result<Extent, Cause> {
    match sort {
        Sort::Op => operation_extent(store, n, NOTHING),
        Sort::Block => basic_block_extent(store, n, NOTHING),
        Sort::Region => region_extent(store, n, NOTHING),
    }
}

fn extent_line(rt: &impl Print, name: &str, store: &Store, sort: Sort, n: u32) -> io::Result<()> {
    match measure(store, sort, n) {
        Ok(extent) => {
            let Extent {
                bytes,
                values,
                blocks,
                operations,
                nesting,
            } = extent;
            println!(rt;
                "extent of {name}: {bytes} bytes, {values} values, {blocks} blocks, {operations} operations, nesting {nesting}"
            )
        }
        Err(cause) => println!(rt; "extent of {name}: refused {cause}"),
    }
}

// Before the region is filled.
pub fn smallest(rt: &impl Print, store: &Store) -> io::Result<()> {
    extent_line(rt, "an operation", store, Sort::Op, 0)?;
    extent_line(rt, "a region without blocks", store, Sort::Region, 0)?;
    extent_line(rt, "an operation with such a region", store, Sort::Op, 1)?;
    extent_line(rt, "no such operation", store, Sort::Op, 2)
}

// Afterwards.
pub fn filled(rt: &impl Print, store: &Store) -> io::Result<()> {
    extent_line(rt, "a block with an operation", store, Sort::Block, 0)?;
    extent_line(rt, "its region", store, Sort::Region, 0)?;
    extent_line(rt, "the operation around", store, Sort::Op, 1)
}
