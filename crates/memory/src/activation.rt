/// What a waiting activation needs to go on: where, and which words are its own.
#[derive(Clone, Copy)]
pub struct Activation {
    /// The index of the instruction that it goes on with.
    pub resume: usize,
    /// Where its words begin.
    pub base: usize,
    /// How many of them are variables.
    pub variables: usize,
    /// How many operands follow these.
    pub operands: usize,
}
