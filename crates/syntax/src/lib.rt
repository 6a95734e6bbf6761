// Syntax trees as records, the steps of a descent over the symbols, and the descent through constants and expressions.
#![tactic(auto)]

mod constants;
mod expressions;
pub mod step;
pub mod tree;
mod words;

pub use constants::begins_elem;
pub use expressions::begins_expr;
pub use step::{Cursor, Descent, Stop};
pub use tree::{NodeKind, TreeRecord, bare, node, placed};
pub use words::word_length;
