// Structural hashing of operations, blocks and regions, by the published 64-bit FNV-1a.
//
// The hash is coherent with equality: two fragments that compare as equal, begun with an empty mapping and under the same ignore rule and
// list of renamed types, have the same hash. The converse isn't guaranteed: collisions are possible.
#![tactic(auto)]

pub mod attributes;
pub mod chains;
pub mod fnv;
pub mod hashes;
pub mod names;
pub mod passes;
pub mod product;
pub mod regionless;
pub mod shells;
pub mod state;
pub mod walk;
