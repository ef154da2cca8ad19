// The two sorts of children: operations in blocks, and blocks in regions.
use crate::columns::{
    BLOCK_NEXT, BLOCK_OP_END, BLOCK_OP_FIRST, BLOCK_REGION, BLOCKS, OP_NEXT, OP_PARENT, OPS,
    REGION_BLOCK_END, REGION_BLOCK_FIRST,
};

// The columns of a sort of child. `table` is the children's index among the counts. A child's word in the column `owners` is its owner's
// number and `offset` more, and below `offset` where it has none; `links` has the next child of the same owner. An owner's children lie in
// the range from `firsts` up to `ends`.
#[derive(Clone, Copy, PartialEq, Eq, Debug)]
pub struct Family {
    pub table: usize,
    pub owners: usize,
    pub offset: usize,
    pub links: usize,
    pub firsts: usize,
    pub ends: usize,
}

pub const OPS_IN_BLOCKS: Family = Family {
    table: OPS,
    owners: OP_PARENT,
    offset: 1,
    links: OP_NEXT,
    firsts: BLOCK_OP_FIRST,
    ends: BLOCK_OP_END,
};

pub const BLOCKS_IN_REGIONS: Family = Family {
    table: BLOCKS,
    owners: BLOCK_REGION,
    offset: 0,
    links: BLOCK_NEXT,
    firsts: REGION_BLOCK_FIRST,
    ends: REGION_BLOCK_END,
};
