// Constants, global words, variables and elements.
ghost use Rattle.std.specs.Prelude.{◌≡◌};
ghost use Rattle.std.specs.Option.{ok_or};
ghost use Rattle.instructions.specs.Moves.{Does};
ghost use Rattle.instructions.specs.Table.{load, keep, index, load_element, keep_element, copy, swap};
ghost use Rattle.instructions.specs.Values.{natural};

use calculation::words::pull_two;
use instructions::answers::{Fault, Trap};
use instructions::area::Area;
use memory::Memory;

// The index that a number is, which is trap 3 where it is negative.
fn index_of(z: i64) -> Result<usize, Fault>
    ensures { result ≡ ok_or (natural z) (Fault.Trap Trap.Index) }
{
    usize::try_from(z).map_err(|_| Fault::Trap(Trap::Index))
}

/// Leaves a word of an area.
pub fn load(m: &mut Memory, area: Area, operand: u16) -> Result<(), Fault>
    ensures { Does (load area operand) m.old result m.new }
{
    m.push(m.word(area, operand as usize).ok_or(Fault::Broken)?)
}

/// Stores a word of an area.
pub fn store(m: &mut Memory, area: Area, operand: u16) -> Result<(), Fault>
    ensures { Does (keep area operand) m.old result m.new }
{
    let x = m.pull()?;
    m.store(area, operand as usize, x).ok_or(Fault::Broken)
}

/// Checks an index against its lower bound and the number of elements, and leaves the one less the other.
pub fn index(m: &mut Memory, operand: u16) -> Result<(), Fault>
    ensures { Does (index operand) m.old result m.new }
{
    let (x, low) = pull_two(m)?;
    let k = index_of(x as i64 - low as i64)?;
    if k < operand as usize {
        m.push(k as i32)
    } else {
        Err(Fault::Trap(Trap::Index))
    }
}

/// Leaves an element of an array in an area.
pub fn load_element(m: &mut Memory, area: Area, operand: u16) -> Result<(), Fault>
    ensures { Does (load_element area operand) m.old result m.new }
{
    let k = m.pull()?;
    let i = index_of(operand as i64 + k as i64)?;
    m.push(m.word(area, i).ok_or(Fault::Trap(Trap::Index))?)
}

/// Stores an element of an array in an area.
pub fn store_element(m: &mut Memory, area: Area, operand: u16) -> Result<(), Fault>
    ensures { Does (keep_element area operand) m.old result m.new }
{
    let (k, x) = pull_two(m)?;
    let i = index_of(operand as i64 + k as i64)?;
    m.store(area, i, x).ok_or(Fault::Trap(Trap::Index))
}

/// Leaves a copy of a word further down.
pub fn copy(m: &mut Memory, operand: u16) -> Result<(), Fault>
    ensures { Does (copy operand) m.old result m.new }
{
    m.push(m.operand(operand as usize)?)
}

/// Exchanges the two newest words.
pub fn swap(m: &mut Memory) -> Result<(), Fault>
    ensures { Does swap m.old result m.new }
{
    let (x, y) = pull_two(m)?;
    m.push(y)?;
    m.push(x)
}
