// The types that the rules and the code share: the rules are stated over these very types, and the code computes with them.
ghost use Rattle.std.specs.Prelude.{◌≡◌};
ghost use Rattle.rules.specs.Causes.{number_of};

use std::fmt;

/// The sorts of fragments.
#[derive(Clone, Copy, PartialEq, Eq, Debug)]
pub enum Sort {
    Op,
    Block,
    Region,
}

/// An operation or a block, by its number: what owns values and attributes.
#[derive(Clone, Copy, PartialEq, Eq, Debug)]
pub enum Owner {
    Op(u32),
    Block(u32),
}

/// An attribute under its key. An inherent one is never ignored.
#[derive(Clone, Copy, PartialEq, Eq, Debug)]
pub struct Attribute {
    pub key: u32,
    pub kind: u32,
    pub content: u32,
    pub inherent: bool,
}

/// An ignore rule: whether locations are ignored, and a bit for each attribute kind, bit 0 the lowest.
#[derive(Clone, Copy, PartialEq, Eq, Debug)]
pub struct Ignore {
    pub locations: bool,
    pub bits: u64,
}

/// How a use is named: by the walk number of what is used, or, of what is defined elsewhere, by its number in the store.
#[derive(Clone, Copy, PartialEq, Eq, Debug)]
pub enum Name {
    WalkNumber(u32),
    StoreNumber(u32),
}

/// The two editions of a listing: which letters there are, and what stands behind `b`. Its first line says which one it is.
#[derive(Clone, Copy, PartialEq, Eq, Debug)]
pub enum Edition {
    First,
    Second,
}

/// Why a call is refused; docs/CAUSES.md has each cause in words. 12 is retired, and not used again.
#[derive(Clone, Copy, PartialEq, Eq, Debug)]
pub enum Cause {
    NotSound = 1,
    NotThere = 2,
    StoreFull = 3,
    OwnerFull = 4,
    TooDeep = 5,
    UnknownKind = 6,
    NoOperand = 7,
    BadMapping = 8,
    BadHeader = 9,
    BadLine = 10,
    BadLength = 11,
    NoRoom = 13,
    BadTypes = 14,
    BadRunLength = 15,
    NoMark = 16,
    JournalFull = 17,
    PlacedInside = 18,
    NamedEarly = 19,
    InherentLine = 20,
}

impl Cause {
    /// Its number, by which a listing and another language are told it.
    pub fn number(self) -> u32
        ensures { result ≡ number_of self }
    {
        self as u32
    }
}

/// A cause is written as its number.
impl fmt::Display for Cause {
    fn fmt<W: fmt::Write>(&self, f: &mut fmt::Formatter<W>) -> fmt::Result {
        let number = self.number();
        write!(f, "{number}")
    }
}
