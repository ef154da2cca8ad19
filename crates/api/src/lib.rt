// Every call on a store that the library offers, on any buffer. Each refuses a buffer that isn't sound, a mapping that isn't allowed and a list of
// renamed types that doesn't hold, and then does what it is named for on what is known to be good. No call asks for anything beforehand.
#![tactic(auto)]

pub mod building;
pub mod copies;
pub mod equality;
pub mod extents;
pub mod fragment_keys;
pub mod hashes;
pub mod independence;
pub mod runs;
pub mod twins;
