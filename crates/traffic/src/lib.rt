//! Feeds and takes on one channel of any port: nothing is lost, nothing invented.
#![tactic(auto)]

pub mod action;
pub mod runs;
