// The kinds of memory: over words, and packed in bytes.
#![tactic(auto)]

pub mod lent;
pub mod packed;
pub mod words;
