// Structural equality of operations, blocks and regions.
//
// The algorithm is two-pass, conceptually.
// 1. Map all definitions (operations' results, blocks' arguments, and blocks).
// 2. Compare everything. Uses (operands and successors) are compared through their mappings, where they have one.
//
// The mapping is lent: `mapping` tests it and makes entries in it, `unmapping` finds what was entered and takes it out.
#![tactic(auto)]

pub mod attributes;
pub mod comparison;
pub mod entries;
pub mod mapping;
pub mod names;
pub mod pairing;
pub mod passes;
pub mod regions;
pub mod shells;
pub mod types;
pub mod unmapping;
pub mod verdicts;
