//! The memory of a board: global words, and the activations with their words.
#![tactic(auto)]

pub mod activation;
mod reads;
pub mod store;
mod work;

pub use store::Memory;
