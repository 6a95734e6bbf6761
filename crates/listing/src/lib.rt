//! Code lists as text: a line for each instruction, with its index, operation, operand and place.
#![tactic(auto)]

pub mod line;
pub mod numbers;
