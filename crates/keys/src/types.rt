// How large a fragment is: the length of its key, how many values, blocks and operations it defines, and the most regions between it and an
// operation inside it.
#[derive(Clone, Copy, PartialEq, Eq, Debug)]
pub struct Extent {
    pub bytes: u32,
    pub values: u32,
    pub blocks: u32,
    pub operations: u32,
    pub nesting: u32,
}
