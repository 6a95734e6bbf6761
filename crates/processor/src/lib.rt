//! Steps of a board as far as its memory goes: each operation by the table, and stretches between the acts of a port.
#![tactic(auto)]

mod obey;
pub mod step;
