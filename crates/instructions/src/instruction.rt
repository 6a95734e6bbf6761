use crate::operation::Operation;

/// An operation with its operand, and the place of the source that it comes from.
#[derive(Clone, Copy, PartialEq, Eq, Debug)]
pub struct Instruction {
    /// What it does.
    pub operation: Operation,
    /// A constant, an address, a target or a size, as the operation reads it.
    pub operand: u16,
    /// A place in the source.
    pub place: u16,
}

/// A board executes the first 4,096 instructions of a list, and no others.
pub const LONGEST: usize = 4096;
