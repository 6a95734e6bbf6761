// The one fault type of the compiler: what is wrong, and where.
#![tactic(auto)]

pub mod kind;
mod numbers;

pub use kind::{Fault, FaultKind, Layer};
