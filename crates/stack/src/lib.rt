//! A last-in-first-out stack over a lent slice, for any plain record.
#![tactic(auto)]

pub mod pile;
mod work;

pub use pile::{Full, Stack};
