// Operations that leave what a function makes of the newest words.
ghost use Rattle.std.specs.Prelude.{ℤ, Bool, Option};
ghost use Rattle.instructions.specs.Moves.{Does};
ghost use Rattle.instructions.specs.Table.{unary, binary, test, relate, combine, check};
ghost use Rattle.calculation.specs.Calls.{OfOne, OfTwo};

use crate::words::{answer, pull_two};
use instructions::answers::{Fault, Trap};
use memory::Memory;

/// Leaves f of the newest word, or traps where it is none.
pub fn unary<F: FnOnce(i32) -> Option<i32>>(m: &mut Memory, trap: Trap, f: F) -> Result<(), Fault>
    requires { F.IsAlwaysCallable f }
    ensures { (g : ℤ → Option ℤ) → OfOne (F.post f) g → Does (unary trap g) m.old result m.new }
{
    let x = m.pull()?;
    answer(m, trap, f(x))
}

/// Leaves f of the two newest words, or traps where it is none.
pub fn binary<F: FnOnce(i32, i32) -> Option<i32>>(
    m: &mut Memory,
    trap: Trap,
    f: F,
) -> Result<(), Fault>
    requires { F.IsAlwaysCallable f }
    ensures { (g : ℤ → ℤ → Option ℤ) → OfTwo (F.post f) g → Does (binary trap g) m.old result m.new }
{
    let (x, y) = pull_two(m)?;
    answer(m, trap, f(x, y))
}

/// Leaves whether a test of the newest word holds.
pub fn test<F: FnOnce(i32) -> bool>(m: &mut Memory, f: F) -> Result<(), Fault>
    requires { F.IsAlwaysCallable f }
    ensures { (g : ℤ → Bool) → OfOne (F.post f) g → Does (test g) m.old result m.new }
{
    let x = m.pull()?;
    m.push(i32::from(f(x)))
}

/// Leaves whether a relation holds of the two newest words.
pub fn relate<F: FnOnce(i32, i32) -> bool>(m: &mut Memory, f: F) -> Result<(), Fault>
    requires { F.IsAlwaysCallable f }
    ensures { (g : ℤ → ℤ → Bool) → OfTwo (F.post f) g → Does (relate g) m.old result m.new }
{
    let (x, y) = pull_two(m)?;
    m.push(i32::from(f(x, y)))
}

/// Leaves f of two sets.
pub fn combine<F: FnOnce(i32, i32) -> i32>(m: &mut Memory, f: F) -> Result<(), Fault>
    requires { F.IsAlwaysCallable f }
    ensures { (g : ℤ → ℤ → ℤ) → OfTwo (F.post f) g → Does (combine g) m.old result m.new }
{
    let (x, y) = pull_two(m)?;
    m.push(f(x, y))
}

/// Traps unless the newest word, which stays, passes the test.
pub fn check<F: FnOnce(i32) -> bool>(m: &Memory, trap: Trap, f: F) -> Result<(), Fault>
    requires { F.IsAlwaysCallable f }
    ensures { (g : ℤ → Bool) → OfOne (F.post f) g → Does (check trap g) m.now result m.now }
{
    let x = m.operand(0)?;
    if f(x) { Ok(()) } else { Err(Fault::Trap(trap)) }
}
