// Listings: the lines of a listing are done one after the other, and what a program prints for them is written into lent bytes. A tally has
// which operations count in the share: those inside right fragments, and those inside right fragments that were found equal.
#![tactic(auto)]

pub mod asking;
pub mod building_lines;
pub mod calls;
pub mod closing;
pub mod comparing;
pub mod counting;
pub mod emptying;
pub mod inside;
pub mod places;
pub mod running;
pub mod summing;
pub mod types;
