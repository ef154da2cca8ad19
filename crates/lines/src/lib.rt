// The lines of listings: where one ends, what its fields are and mean, and how lines of output are printed.
#![tactic(auto)]

pub mod editions;
pub mod header;
pub mod letters;
pub mod meaning;
pub mod parsing;
pub mod pieces;
pub mod printing;
pub mod reading;
pub mod texts;
pub mod writing;
