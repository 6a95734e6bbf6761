use crate::activation::Activation;
use instructions::answers::Status;
use std::marker::Model;

/// Global words, the words of all open activations one after the other, the waiting activations, the next index and the status.
// Lengths stand beside the arrays, since a board works in fixed memory without a heap.
#[derive(Drop)]
pub struct Memory {
    pub(crate) globals: [i32; 1024],
    pub(crate) words: [i32; 8448],
    pub(crate) callers: [Activation; 32],
    pub(crate) depth: usize,
    pub(crate) base: usize,
    pub(crate) variables: usize,
    pub(crate) operands: usize,
    pub(crate) pc: usize,
    pub(crate) status: Status,
}

impl Model for Memory {
    ghost use Rattle.instructions.specs.State.{State};

    ghost Value = { State };

    ghost use Rattle.memory.specs.Seen.{seen, Sound};

    ghost view = { seen };

    ghost invariant = { Sound };
}
