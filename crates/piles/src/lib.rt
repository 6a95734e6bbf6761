//! Piles of layers over any port, owned and lent, and a holder that owns its port beside borrowed code, as a board does.
#![tactic(auto)]

pub mod exchange;
pub mod holder;
pub mod layer;
pub mod pile;
pub mod uses;
