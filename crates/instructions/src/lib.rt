//! The instructions of a board: operations with their numbers, what a board answers, and the table of effects in specs/.
#![tactic(auto)]

pub mod answers;
pub mod area;
pub mod instruction;
pub mod laws;
pub mod operation;
