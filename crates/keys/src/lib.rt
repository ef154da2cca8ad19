// Keys: a fragment's structure as bytes, to be kept and put in order outside of any store; and how two keys compare.
//
// A key is what the hash takes in, with the count of every list ahead of it, so that it can be read back: two fragments have the same key
// if they are equal, and only then. Every function that puts bytes is lent the rest of a key, puts them at its beginning, and answers how many
// they are, whether they fit or not. So what puts something else behind them lends on the rest of the rest, from there on, and no earlier byte
// is within its reach; and the same walk writes a key and, where nothing is lent, tells how long it will be.
#![tactic(auto)]

pub mod attributes;
pub mod counting;
pub mod counts;
pub mod keys;
pub mod measuring;
pub mod names;
pub mod numbers;
pub mod order;
pub mod passes;
pub mod regionless;
pub mod shell_bytes;
pub mod shells;
pub mod types;
pub mod walk;
