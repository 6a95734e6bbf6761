//! Lines of scripts: commands for a port, the settings of a port, and answers.
#![tactic(auto)]

pub mod answer;
pub mod command;
pub mod line;
pub mod settings;
#[cfg(test)]
mod tests;
