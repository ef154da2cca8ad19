// The rules: specs/ states the order, and proofs/ the laws over it. `types` are the types that rules and code share, `limits` the limits by name;
// `theorems` lists what is proved, each as a contract.
#![tactic(auto)]

pub mod limits;
pub mod theorems;
pub mod types;
