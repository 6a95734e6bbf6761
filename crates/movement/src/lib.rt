//! The operations that move words: constants, global words, variables and elements.
#![tactic(auto)]

pub mod moves;
