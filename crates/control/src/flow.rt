// Jumps, the step of a FOR, activations, and what goes to the port.
ghost use Rattle.std.specs.Prelude.{◌≡◌, cond, pos, Ok, Err, int_le, unsigned_abs};
ghost use Rattle.instructions.specs.Moves.{Does, ok};
ghost use Rattle.instructions.specs.State.{at, became};
ghost use Rattle.instructions.specs.Table.{jump_if, jump_unless, advance, call, return_value, take, put};
ghost use Rattle.instructions.specs.Values.{goes_on, following, channel_numbers};
ghost use Rattle.integer.specs.Ends.{within};

use calculation::words::pull_two;
use instructions::answers::{Fault, Status, Trap};
use memory::Memory;

/// Ends the reading.
pub fn end(m: &mut Memory) -> Result<(), Fault>
    ensures { Does (λ c. ok tt (became Status.Ended c)) m.old result m.new }
{
    m.set_status(Status::Ended);
    Ok(())
}

/// Goes to an instruction.
pub fn jump(m: &mut Memory, operand: u16) -> Result<(), Fault>
    ensures { Does (λ c. ok tt (at operand c)) m.old result m.new }
{
    m.go(operand as usize);
    Ok(())
}

/// Goes to an instruction if the word as a truth value is the wanted one.
pub fn jump_where(m: &mut Memory, wanted: bool, operand: u16) -> Result<(), Fault>
    ensures { Does (cond wanted (jump_if operand) (jump_unless operand)) m.old result m.new }
{
    let x = m.pull()?;
    if (x != 0) == wanted {
        m.go(operand as usize);
    }
    Ok(())
}

// Whether the term after `term` does not surpass the limit.
fn goes_on(term: i32, limit: i32, step: i32) -> bool
    ensures { result ≡ goes_on term limit step }
{
    let next = term as i64 + step as i64;
    if step >= 0 {
        next <= limit as i64
    } else {
        limit as i64 <= next
    }
}

// The term after `term` if it does not surpass the limit; otherwise `term`.
fn following(term: i32, limit: i32, step: i32) -> i32
    ensures { result ≡ following term limit step }
{
    if goes_on(term, limit, step) {
        term + step
    } else {
        term
    }
}

/// The next term of a FOR, and whether there is one.
pub fn advance(m: &mut Memory) -> Result<(), Fault>
    ensures { Does advance m.old result m.new }
{
    let step = m.pull()?;
    let (term, limit) = pull_two(m)?;
    m.push(i32::from(goes_on(term, limit, step)))?;
    m.push(following(term, limit, step))
}

/// Whether a word is the number of a channel.
pub fn is_channel(x: i32) -> bool
    ensures { result ≡ within channel_numbers x }
{
    (0..16).contains(&x)
}

// The channel that a word is the number of.
fn channel_of(x: i32) -> Result<u8, Fault>
    ensures { result ≡ cond (within channel_numbers x) (Ok (unsigned_abs x)) (Err (Fault.Trap Trap.Channel)) }
{
    if is_channel(x) {
        Ok(x as u8)
    } else {
        Err(Fault::Trap(Trap::Channel))
    }
}

/// The channel that a Take names.
pub fn take(m: &Memory) -> Result<u8, Fault>
    ensures { Does take m.now result m.now }
{
    channel_of(m.operand(0)?)
}

/// The channel and the value of a Put.
pub fn put(m: &mut Memory) -> Result<(u8, i16), Fault>
    ensures { Does put m.old result m.new }
{
    let (x, y) = pull_two(m)?;
    let channel = channel_of(x)?;
    let value = i16::try_from(y).map_err(|_| Fault::Trap(Trap::Range))?;
    Ok((channel, value))
}

/// Opens an activation.
pub fn call(m: &mut Memory, operand: u16) -> Result<(), Fault>
    ensures { Does (call operand) m.old result m.new }
{
    m.open_activation((operand / 4096) as usize, (operand % 4096) as usize)
}

/// Closes an activation, with a result.
pub fn return_value(m: &mut Memory) -> Result<(), Fault>
    ensures { Does return_value m.old result m.new }
{
    let x = m.pull()?;
    m.close_activation()?;
    m.push(x)
}
