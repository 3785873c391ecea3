// A file of definitions: where each one ends, and on which line a place stands.
#![tactic(auto)]

pub mod location;
pub mod texts;
