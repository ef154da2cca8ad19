// Where entries of a mapping are, and the search for them.

// Where the entries of a mapping are: nowhere but among its words from `value` up to `end`, which are entries of values, and from
// `owner` up to `past`, which are entries of blocks and operations. Where the first number is not the smaller one, there are none.
#[derive(Clone, Copy)]
pub struct Entries {
    pub value: u32,
    pub end: u32,
    pub owner: u32,
    pub past: u32,
}

// The search for entries: those found so far are there, and `left` more blocks and operations may have one.
#[derive(Clone, Copy)]
pub struct Search {
    pub left: u32,
    pub found: Entries,
}
