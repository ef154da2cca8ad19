// What is told of a fragment, and what a walk over one goes through.

// What an operation or a block has by itself: its location, its attributes in `attributes` slots from `slot` on, and its results or
// arguments, `values` of them from value `value` on.
#[derive(Clone, Copy, PartialEq, Eq, Debug)]
pub struct ShellRow {
    pub location: u32,
    pub slot: usize,
    pub attributes: usize,
    pub value: usize,
    pub values: usize,
}

// What only an operation has: its kind, and how many regions, successors and operands.
#[derive(Clone, Copy, PartialEq, Eq, Debug)]
pub struct OpHeader {
    pub kind: u32,
    pub regions: usize,
    pub successors: usize,
    pub operands: usize,
}

// A list of blocks that a walk goes through: those of a region, or a block alone, a list of one.
#[derive(Clone, Copy, PartialEq, Eq, Debug)]
pub enum Blocks {
    InRegion(usize),
    Single(usize),
}

// A fragment's size: how many operations are in it, and its deepest nesting, the most regions between it, itself not counted, and an
// operation inside it.
#[derive(Clone, Copy, PartialEq, Eq, Debug)]
pub struct Size {
    pub operations: u32,
    pub nesting: u32,
}
