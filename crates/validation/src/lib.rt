// Is a lent buffer sound, with the tables of all of its marks?
#![tactic(auto)]

pub mod lent;
pub mod steps;
pub mod words;
