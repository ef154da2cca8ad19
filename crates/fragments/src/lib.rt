// The fragments of a store, and what comparison, hash and key share: which there are, what an operation or a block has by itself, what an ignore
// rule leaves of it, the order in which a walk goes through a fragment, how large one is, and what lies inside it.
//
// Two things are looked up on the way. A list of renamed types is tested once and indexed, so that a type's present type is found without a
// search of the whole list. And walk numbers: what is defined within a fragment is numbered in the order in which a walk comes to it, and what
// is used is named by its number, or, where it is defined elsewhere, by its number in the store.
#![tactic(auto)]

pub mod ignoring;
pub mod indexing;
pub mod inside;
pub mod kept_slots;
pub mod lookup;
pub mod order;
pub mod regionless;
pub mod rows;
pub mod sizes;
pub mod sorts;
pub mod types;
pub mod view;
pub mod words;
