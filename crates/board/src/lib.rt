//! A board that executes instructions over a port of any make.
#![tactic(auto)]

pub mod machine;
pub mod refusal;
mod run;

pub use machine::Board;
