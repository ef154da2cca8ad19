// An operation copied with all inside it: the steps of its walk as words, the tests over them, the copier's mapping, and what is written.
#![tactic(auto)]

pub mod cloning;
pub mod early;
pub mod images;
pub mod inside;
pub mod nesting;
pub mod original;
pub mod steps;
pub mod totals;
pub mod writing;
