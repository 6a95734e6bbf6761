// INTEGER arithmetic: range-checked operations, the division pair, bands, and sets as sums of powers of two.
#![tactic(auto)]

pub mod arithmetic;
pub mod bands;
pub mod division;
pub mod laws;
pub mod sets;

pub use arithmetic::{absolute, add, multiply, negate, subtract};
pub use bands::{clamp, saturate};
pub use division::divide;
pub use laws::laws_hold;
pub use sets::{contains, difference, exclude, include, intersection, range, union};

/// The least INTEGER.
pub const LOWEST: i32 = i16::MIN as i32;
/// The greatest INTEGER.
pub const HIGHEST: i32 = i16::MAX as i32;
