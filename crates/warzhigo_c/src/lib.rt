// What another language calls, over numbers and lent words or bytes: the offered calls (`wz_`), and the same on a store that is known to
// be sound, with a mapping that is known to be allowed (`wz_known_`).
#![tactic(auto)]

pub mod answers;
pub mod groups;
pub mod known;
pub mod lengths;
pub mod listings;
pub mod offered;
pub mod words;
