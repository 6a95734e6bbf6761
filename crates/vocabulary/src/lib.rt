// What the symbols of the language look like: their tags and spellings, the classes of bytes, signs and numbers.
#![tactic(auto)]

mod characters;
mod numbers;
mod signs;
pub mod tag;
mod words;

pub use characters::{is_alphanumeric, is_digit, is_letter, run};
pub use numbers::{digit_value, digits_value, number_value};
pub use signs::sign;
pub use tag::Tag;
pub use words::word_tag;
