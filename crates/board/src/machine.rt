use instructions::instruction::Instruction;
use memory::Memory;

/// A board that executes code over a port.
#[derive(Drop)]
pub struct Board<'a, P> {
    pub(crate) code: &'a [Instruction],
    pub(crate) memory: Memory,
    pub(crate) port: P,
}
