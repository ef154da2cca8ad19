// Why a listing is not converted, and what is known of it before anything is written.
use rules::types::Cause;

// There is too little room for whatever may be printed.
#[derive(Clone, Copy, PartialEq, Eq, Debug)]
pub struct NoRoom;

// A line that is refused, and for which cause.
#[derive(Clone, Copy, PartialEq, Eq, Debug)]
pub struct Refusal {
    pub line: u32,
    pub cause: Cause,
}

// How long the converted listing is, and the first of its lines that is too long.
#[derive(Clone, Copy, PartialEq, Eq, Debug)]
pub struct Sizes {
    pub whole: usize,
    pub too_long: Option<u32>,
}
