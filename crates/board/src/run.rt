ghost use Rattle.std.specs.Prelude.{◌≡◌, ℕ, ◌+◌, ◌-◌, ◌^◌, ◌<◌, ◌≤◌, length};
ghost use Rattle.ports.specs.Calls.{feed_answer, look_answer};
ghost use Rattle.ports.specs.Refusals.{numbered as port-numbered};
ghost use Rattle.instructions.specs.Steps.{loaded, run, delivered};
ghost use Rattle.board.specs.Refusals.{numbered};
ghost use Rattle.board.specs.Seen.{view, answered, tally, ran, fed, peeked, shown_word};
ghost use Rattle.processor.specs.Shows.{WithinList};

use crate::machine::Board;
use crate::refusal::Refusal;
use instructions::answers::{Act, Outcome, Ran, Status, Step};
use instructions::area::Area;
use instructions::instruction::{Instruction, LONGEST};
use memory::Memory;
use ports::port::Port;
use ports::refusal::Refusal as PortRefusal;
use ports::seen::Seen;
use processor::step::steps;

// A word as it is shown: 65,536 less from 32,768 up.
// By a comparison and no cast: a word may be any number, and only those from 32,768 up are moved.
fn shown_word(z: i32) -> i32
    ensures { result ≡ shown_word z }
{
    if z >= 32_768 { z - 65_536 } else { z }
}

// Hands a sample to the Take that asked for it.
// Its index lies within the list: `processor` answers so, and a memory alone can stand at any.
fn deliver(m: &mut Memory, z: i16)
    requires { m.old.pc + 1 < 2 ^ 64 }
    ensures { m.new ≡ delivered z m.old }
{
    m.go(m.pc() + 1);
    m.replace(z as i32);
}

impl<'a, P: Port> Board<'a, P> {
    /// A board that has executed nothing of a list's first 4,096 instructions, over a port.
    pub fn load(code: &'a [Instruction], port: P) -> Board<'a, P>
        ensures blank { view P.Port.meaning result ≡ loaded code.now (P.Port.meaning port) }
        ensures lent { P.Port.lenders result.port ≡ P.Port.lenders port }
    {
        let code = &code[..LONGEST.min(code.len())];
        Board {
            code,
            memory: Memory::new(),
            port,
        }
    }

    // The calls are passed on under names of its own: a board is no port, and nobody else may take or set.
    /// Hands the port a sample for a channel.
    pub fn feed(&mut self, c: u8, v: i16) -> Result<(), PortRefusal>
        ensures answer { port-numbered result ≡ feed_answer (P.Port.meaning self.old.port) c }
        ensures after { view P.Port.meaning self.new ≡ fed c v (view P.Port.meaning self.old) }
        ensures lent { P.Port.lenders self.new.port ≡ P.Port.lenders self.old.port }
    {
        self.port.feed(c, v)
    }

    /// What the port shows of a channel.
    pub fn look(&self, c: u8) -> Result<Seen, PortRefusal>
        ensures { port-numbered result ≡ look_answer (P.Port.meaning self.now.port) c }
    {
        self.port.look(c)
    }

    /// The value of a global word.
    pub fn peek(&self, w: u16) -> Result<i32, Refusal>
        ensures { numbered result ≡ peeked (view P.Port.meaning self.now) w }
    {
        let z = self
            .memory
            .word(Area::Globals, w as usize)
            .ok_or(Refusal::NoWord)?;
        Ok(shown_word(z))
    }

    // Asks the port what an act asks of it.
    fn meet(&mut self, act: Act) -> Step
        requires { WithinList act self.old.memory.pc (length self.old.code.now) }
        ensures gone { answered act (view P.Port.meaning self.old) ≡ record { step = result; view = view P.Port.meaning self.new } }
        ensures lent { P.Port.lenders self.new.port ≡ P.Port.lenders self.old.port }
    {
        match act {
            Act::Went => Step::Went,
            Act::Stopped => Step::Stopped(Outcome::from(self.memory.status())),
            Act::Take(c, place) => match self.port.take(c) {
                Ok(Some(z)) => {
                    deliver(&mut self.memory, z);
                    Step::Event
                }
                Ok(None) => Step::Stopped(Outcome::Waits(c, place)),
                Err(_) => {
                    self.memory.set_status(Status::Broken);
                    Step::Stopped(Outcome::Broken)
                }
            },
            Act::Set(c, v) => match self.port.set(c, v) {
                Ok(()) => Step::Event,
                Err(_) => {
                    self.memory.set_status(Status::Broken);
                    Step::Stopped(Outcome::Broken)
                }
            },
        }
    }

    /// Executes at most `budget` instructions.
    pub fn run(&mut self, budget: u16) -> Ran
        ensures gone { tally (run budget (view P.Port.meaning self.old)) ≡ ran result (view P.Port.meaning self.new) }
        ensures lent { P.Port.lenders self.new.port ≡ P.Port.lenders self.old.port }
    {
        // A turn executes a stretch of any length, so no range counts the turns.
        let mut executed = 0;
        let mut events = 0;
        while executed < budget {
            let stretch = steps(&mut self.memory, self.code, budget - executed);
            executed += stretch.executed;
            match self.meet(stretch.act) {
                Step::Went => {}
                Step::Event => {
                    executed += 1;
                    events += 1;
                }
                Step::Stopped(outcome) => return Ran {
                    outcome,
                    executed,
                    events,
                },
            }
        }
        Ran {
            outcome: Outcome::from(self.memory.status()),
            executed,
            events,
        }
    }
}
