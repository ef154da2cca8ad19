// The store in memory: one lent buffer of words, in columns. docs/STORE.md has every column.
#![tactic(auto)]

pub mod checks;
pub mod children;
pub mod columns;
pub mod existing;
pub mod families;
pub mod kinds;
pub mod links;
pub mod lists;
pub mod ops_in;
pub mod owners;
pub mod row_checks;
pub mod rows;
pub mod ruled;
pub mod slices;
pub mod sound;
