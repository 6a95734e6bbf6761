//! The operations that jump, step a FOR, open and close activations, end, and name what goes to the port.
#![tactic(auto)]

pub mod flow;
