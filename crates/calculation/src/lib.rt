//! The operations that calculate, over the function that each applies to the newest words.
#![tactic(auto)]

pub mod apply;
pub mod words;
