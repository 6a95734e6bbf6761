// The symbols of a source: the next one from a place on, and all of them in a lent list of records.
#![tactic(auto)]

mod next;
mod parts;
mod records;
pub mod symbol;

pub use next::next_symbol;
pub use records::{MAX_BYTES, MAX_SYMBOLS, scan};
pub use symbol::{Lexeme, Symbol, SymbolRecord};
