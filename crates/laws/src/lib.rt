// This crate holds no code: specs/ states what holds of whatever the offered calls answer, proofs/ shows it, and each law is a clause of a
// function in `theorems`, those of the same work in `work`.
#![tactic(auto)]

pub mod theorems;
pub mod work;
