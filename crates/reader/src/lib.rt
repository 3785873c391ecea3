// From a text to the one definition that it holds: nesting, shapes, and what the book is handed.
#![tactic(auto)]

pub mod definition;
pub mod elements;
pub mod fault;
mod form;
pub mod keyword;
mod list;
pub mod nesting;
pub mod read;
pub mod shape;
