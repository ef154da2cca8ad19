// The first two equal runs of operations in a block that do not overlap.
//
// Before it compares, the search has the numbers of the block's operations, and for each start the sum of the window there, which takes in what
// operations have by themselves. Equal runs have equal sums. So only runs of one sum are compared, and of these only those whose first
// operations' operands may agree.
#![tactic(auto)]

pub mod comparing;
pub mod finding;
pub mod listing;
pub mod powers;
pub mod searching;
pub mod shells;
pub mod sums;
pub mod types;
pub mod uses;
