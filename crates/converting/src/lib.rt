// The converter: a listing of either edition in, the same listing of the other edition out. It makes no building calls.
#![tactic(auto)]

pub mod calls;
pub mod parts;
pub mod testing;
pub mod types;
pub mod writing;
