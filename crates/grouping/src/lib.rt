// Independence of two fragments, and the twins among a store's operations.
//
// Twins have the same hash, by the laws of hashes: so only operations of one hash are tested for independence and compared.
#![tactic(auto)]

pub mod comparing;
pub mod finding;
pub mod hashes;
pub mod independence;
pub mod reaching;
