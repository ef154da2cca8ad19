// What the calls take.

// What a new operation is given, but for its lists. Its parent is a block, or there is none.
#[derive(Clone, Copy, PartialEq, Eq, Debug)]
pub struct OpFields {
    pub kind: u32,
    pub parent: Option<u32>,
    pub location: u32,
    pub regions: u32,
}
