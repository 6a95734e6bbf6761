ghost use Rattle.instructions.specs.Moves.{Does};
ghost use Rattle.instructions.specs.Table.{pull_two, answer};

use instructions::answers::{Fault, Trap};
use memory::Memory;

/// Takes two words: the one left first, and the newest.
pub fn pull_two(m: &mut Memory) -> Result<(i32, i32), Fault>
    ensures { Does pull_two m.old result m.new }
{
    let y = m.pull()?;
    let x = m.pull()?;
    Ok((x, y))
}

/// Leaves a value, or traps where there is none.
pub fn answer(m: &mut Memory, trap: Trap, value: Option<i32>) -> Result<(), Fault>
    ensures { Does (answer trap value) m.old result m.new }
{
    m.push(value.ok_or(Fault::Trap(trap))?)
}
