use rules::limits::MAX_OPS;

// Where an operation is, as far as the share goes: inside no right fragment, inside one, or inside one that was found equal.
#[derive(Clone, Copy, PartialEq, Eq, Debug)]
pub enum Place {
    Outside,
    Inside,
    InsideEqual,
}

// A place for each operation number.
pub type Tally = [Place; MAX_OPS];

// What the share is computed from: how many operations are inside right fragments found equal, and inside any.
#[derive(Clone, Copy, PartialEq, Eq, Debug)]
pub struct Counts {
    pub equal: u32,
    pub all: u32,
}
