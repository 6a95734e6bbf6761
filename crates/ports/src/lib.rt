//! Ports of sixteen channels: what a port means, the calls on one, why a call is refused, and lent ports.
#![tactic(auto)]

pub mod channel;
pub mod lent;
pub mod port;
pub mod refusal;
pub mod sample;
pub mod seen;
