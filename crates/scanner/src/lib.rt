// From a definition's text to its tokens, with the faults that a text can have before it is a form.
#![tactic(auto)]

pub mod class;
pub mod fault;
pub mod number;
pub mod scan;
pub mod scanner;
pub mod token;
