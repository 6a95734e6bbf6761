//! Plays a script on a port: the port is set up, then used.
#![tactic(auto)]

pub mod play;
pub mod serve;
pub mod setup;
