ghost use Rattle.std.specs.Prelude.{◌≡◌, ok_or};
ghost use Rattle.instructions.specs.declared.answers.Fault.{Fault};
ghost use Rattle.instructions.specs.Moves.{Does, pull, push, store_word, open_activation, close_activation, make_variables, replace};
ghost use Rattle.instructions.specs.State.{start, became, at};

use crate::activation::Activation;
use crate::store::Memory;
use instructions::answers::{Fault, Status, Trap};
use instructions::area::Area;
use stack::Stack;

/// An activation has room for 256 words.
const ROOM: usize = 256;

impl Memory {
    /// A memory in which nothing has been stored.
    pub fn new() -> Memory
        ensures { result ≡ start }
    {
        Memory {
            globals: [0; 1024],
            words: [0; 8448],
            callers: [Activation {
                resume: 0,
                base: 0,
                variables: 0,
                operands: 0,
            }; 32],
            depth: 0,
            base: 0,
            variables: 0,
            operands: 0,
            pc: 0,
            status: Status::Running,
        }
    }

    /// Changes the status.
    pub fn set_status(&mut self, status: Status)
        ensures { self.new ≡ became status self.old }
    {
        self.status = status;
    }

    /// Goes to an instruction.
    pub fn go(&mut self, index: usize)
        ensures { self.new ≡ at index self.old }
    {
        self.pc = index;
    }

    /// Takes the newest operand.
    pub fn pull(&mut self) -> Result<i32, Fault>
        ensures { Does pull self.old result self.new }
    {
        if self.operands == 0 {
            return Err(Fault::Broken);
        }
        self.operands -= 1;
        Ok(self.words[self.base + self.variables + self.operands])
    }

    /// Leaves an operand.
    pub fn push(&mut self, x: i32) -> Result<(), Fault>
        ensures { Does (push x) self.old result self.new }
    {
        if self.variables + self.operands >= ROOM {
            return Err(Fault::Broken);
        }
        self.words[self.base + self.variables + self.operands] = x;
        self.operands += 1;
        Ok(())
    }

    /// Puts `z` in the place of the newest operand.
    pub fn replace(&mut self, z: i32)
        ensures { self.new ≡ replace z self.old }
    {
        if self.operands > 0 {
            self.words[self.base + self.variables + (self.operands - 1)] = z;
        }
    }

    /// Stores a word of an area, or answers none where the area does not have it.
    pub fn store(&mut self, area: Area, i: usize, x: i32) -> Option<()>
        ensures { (e : Fault) → Does (store_word area e i x) self.old (ok_or result e) self.new }
    {
        match area {
            Area::Globals if i < self.globals.len() => self.globals[i] = x,
            Area::Variables if i < self.variables => self.words[self.base + i] = x,
            _ => return None,
        }
        Some(())
    }

    /// Opens an activation whose first variables are the newest operands; it begins at `target`.
    pub fn open_activation(&mut self, arguments: usize, target: usize) -> Result<(), Fault>
        ensures { Does (open_activation arguments target) self.old result self.new }
    {
        if arguments > self.operands {
            return Err(Fault::Broken);
        }
        let kept = self.operands - arguments;
        let caller = Activation {
            resume: self.pc,
            base: self.base,
            variables: self.variables,
            operands: kept,
        };
        let mut open = Stack::over(&mut self.callers, self.depth);
        if open.push(caller).is_err() {
            return Err(Fault::Trap(Trap::Activations));
        }
        self.depth += 1;
        self.base += self.variables + kept;
        self.variables = arguments;
        self.operands = 0;
        self.pc = target;
        Ok(())
    }

    /// Closes the newest activation.
    pub fn close_activation(&mut self) -> Result<(), Fault>
        ensures { Does close_activation self.old result self.new }
    {
        let mut open = Stack::over(&mut self.callers, self.depth);
        let caller = open.pop().ok_or(Fault::Broken)?;
        self.depth -= 1;
        self.base = caller.base;
        self.variables = caller.variables;
        self.operands = caller.operands;
        self.pc = caller.resume;
        Ok(())
    }

    /// Makes variables of all words of the newest activation, and `n` more that are 0.
    pub fn make_variables(&mut self, n: u16) -> Result<(), Fault>
        ensures { Does (make_variables n) self.old result self.new }
    {
        let held = self.variables + self.operands;
        let all = held + n as usize;
        if all > ROOM {
            return Err(Fault::Broken);
        }
        self.words[self.base + held..self.base + all].fill(0);
        self.variables = all;
        self.operands = 0;
        Ok(())
    }
}
