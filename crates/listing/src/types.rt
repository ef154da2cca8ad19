// The two programs, what reads a listing, and why a listing is not printed.
use rules::types::{Cause, Edition};

#[derive(Clone, Copy, PartialEq, Eq, Debug)]
pub enum Program {
    Twins,
    Sums,
}

// The program that reads a listing, and the edition that the listing has.
#[derive(Clone, Copy)]
pub struct Reading {
    pub program: Program,
    pub edition: Edition,
}

// Why a listing is not printed: a lent buffer is not of its length, or there is too little room.
#[derive(Clone, Copy, PartialEq, Eq, Debug)]
pub enum Unprinted {
    Refused(Cause),
    NoRoom,
}
