// The stored rule: S-code words with their globals and entry address, as bytes.
#![tactic(auto)]

pub mod load;
pub mod rule;
pub mod store;
