//! Runs a code list on a board, and answers a script line by line.
#![tactic(auto)]

pub mod code;
pub mod order;
pub mod play;
pub mod reply;
pub mod serve;
