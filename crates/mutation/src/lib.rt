// The calls that change a store, on sound words: operations and blocks are added, operands and attributes set. `types` has what they take.
#![tactic(auto)]

pub mod attributes;
pub mod blocks;
pub mod operands;
pub mod operations;
pub mod tests;
pub mod types;
pub mod writes;
