// What is read of a memory.
ghost use Rattle.std.specs.Prelude.{◌≡◌, ok_or};
ghost use Rattle.instructions.specs.declared.answers.Fault.{Fault};
ghost use Rattle.instructions.specs.Moves.{Does, operand, word};

use crate::store::Memory;
use instructions::answers::{Fault, Status};
use instructions::area::Area;

impl Memory {
    /// Whether the board goes on.
    pub fn status(&self) -> Status
        ensures { result ≡ self.now.status }
    {
        self.status
    }

    /// The index of the next instruction.
    pub fn pc(&self) -> usize
        ensures { result ≡ self.now.pc }
    {
        self.pc
    }

    /// The operand that is `n` below the newest.
    pub fn operand(&self, n: usize) -> Result<i32, Fault>
        ensures { Does (operand n) self.now result self.now }
    {
        if n >= self.operands {
            return Err(Fault::Broken);
        }
        Ok(self.words[self.base + self.variables + (self.operands - 1 - n)])
    }

    // The variables of the newest activation.
    fn variables(&self) -> &[i32]
        ensures { result.now ≡ self.now.words.variables }
    {
        &self.words[self.base..self.base + self.variables]
    }

    /// A word of an area, or none where the area does not have it.
    pub fn word(&self, area: Area, i: usize) -> Option<i32>
        ensures { (e : Fault) → Does (word area e i) self.now (ok_or result e) self.now }
    {
        match area {
            Area::Globals => self.globals.get(i).copied(),
            Area::Variables => self.variables().get(i).copied(),
        }
    }
}
