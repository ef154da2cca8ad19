// What `twins`, `sums` and `convert` do around a listing: standard input is read to its end, and what is printed goes to standard output.
#![tactic(auto)]

pub mod answers;
pub mod commands;
pub mod failing;
pub mod input;
pub mod standard;
#[cfg(test)]
mod tests;
