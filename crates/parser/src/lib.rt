// The parser: recursive descent over the symbols of a source, into records of its syntax tree.
#![tactic(auto)]

pub mod answer;
mod declarations;
mod statements;

pub use answer::{MAX_RECORDS, Parsed, parse};
