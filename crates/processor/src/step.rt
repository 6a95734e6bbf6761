ghost use Rattle.std.specs.Prelude.{◌≡◌, ℕ, ◌+◌, ◌^◌, ◌<◌, length};
ghost use Rattle.instructions.specs.State.{on};
ghost use Rattle.instructions.specs.Steps.{failing, settled, effect, stepped};
ghost use Rattle.processor.specs.Shows.{stretched, Tells, WithinList};

use crate::obey::obey;
use control::flow;
use instructions::answers::{Act, Fault, PortCall, Status};
use instructions::instruction::Instruction;
use memory::Memory;

// An operation that was not carried out: no effect, or a trap at its place.
fn fail(m: &mut Memory, fault: Fault, place: u16) -> Act
    ensures { Tells (failing fault place) m.old result m.new }
{
    match fault {
        Fault::Broken => {
            m.set_status(Status::Broken);
            Act::Stopped
        }
        Fault::Trap(trap) => {
            m.set_status(Status::Trapped(trap, place));
            Act::Went
        }
    }
}

// What an operation came to.
fn settle(m: &mut Memory, res: Result<(), Fault>, place: u16) -> Act
    ensures { Tells (settled res place) m.old result m.new }
{
    match res {
        Ok(()) => Act::Went,
        Err(fault) => fail(m, fault, place),
    }
}

// Goes on to the next index.
// The index of a step lies within the list; a memory alone can stand at any.
fn go_on(m: &mut Memory)
    requires { m.old.pc + 1 < 2 ^ 64 }
    ensures { m.new ≡ on m.old }
{
    m.go(m.pc() + 1);
}

// Executes an instruction as far as the memory goes.
// Its index lies within the list, as that of `go_on`.
fn execute(m: &mut Memory, i: Instruction) -> Act
    requires { m.old.pc + 1 < 2 ^ 64 }
    ensures { Tells (effect i) m.old result m.new }
{
    match i.operation.port_call() {
        None => {
            go_on(m);
            let result = obey(m, i.operation, i.operand);
            settle(m, result, i.place)
        }
        Some(PortCall::Take) => match flow::take(m) {
            Ok(channel) => Act::Take(channel, i.place),
            Err(fault) => {
                go_on(m);
                fail(m, fault, i.place)
            }
        },
        Some(PortCall::Set) => {
            go_on(m);
            match flow::put(m) {
                Ok((channel, value)) => Act::Set(channel, value),
                Err(fault) => fail(m, fault, i.place),
            }
        }
    }
}

// One step, by the status and the next instruction, as far as the memory goes.
fn step(m: &mut Memory, code: &[Instruction]) -> Act
    ensures gone { Tells (stepped code.now) m.old result m.new }
    ensures here { WithinList result m.new.pc (length code.now) }
{
    match (m.status(), code.get(m.pc())) {
        (Status::Running, Some(i)) => execute(m, *i),
        (Status::Running, None) => fail(m, Fault::Broken, 0),
        _ => Act::Stopped,
    }
}

/// Steps one after another that ask nothing of the port, and what the next step asks.
#[derive(Clone, Copy)]
pub struct Stretch {
    /// How many steps were made.
    pub executed: u16,
    /// What the next step asks, or `Went` where there was to be none.
    pub act: Act,
}

/// At most `budget` steps, up to the first that asks something of the port or is not executed.
/// The loop stands here and not where the port is, so that it is compiled once for every make of port.
pub fn steps(m: &mut Memory, code: &[Instruction], budget: u16) -> Stretch
    ensures gone { stretched budget code.now m.old ≡ record { executed = result.executed; act = result.act; state = m.new } }
    ensures here { WithinList result.act m.new.pc (length code.now) }
{
    for turn in 0..budget {
        match step(m, code) {
            Act::Went => {}
            act => return Stretch {
                executed: turn,
                act,
            },
        }
    }
    Stretch {
        executed: budget,
        act: Act::Went,
    }
}
