ghost use Rattle.std.specs.Prelude.{◌≡◌};
ghost use Rattle.board.specs.Refusals.{number_of};

use std::fmt;

/// Why a peek was refused. A refusal alters nothing.
// Beside a port's refusals, and not among them: a port has no words to peek at.
#[derive(Clone, Copy)]
pub enum Refusal {
    /// The word is above 1,023.
    NoWord = 53,
}

impl Refusal {
    /// The number that the refusal goes by.
    pub fn number(self) -> u8
        ensures { result ≡ number_of self }
    {
        self as u8
    }
}

// Shown as a port's refusal is: one impl for both would need a trait of their own, for these two lines.
impl fmt::Display for Refusal {
    ghost use Rattle.std.specs.Prelude.{Some};
    ghost use Rattle.board.specs.Refusals.{shown};

    ghost output = { λ refusal. Some (shown refusal) };

    fn fmt<W: fmt::Write>(&self, f: &mut fmt::Formatter<W>) -> fmt::Result {
        write!(f, "refused {}", self.number())
    }
}
