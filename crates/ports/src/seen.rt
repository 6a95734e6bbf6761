use crate::sample::Sample;
use std::fmt;

/// What a look at a channel sees.
#[derive(Clone, Copy, PartialEq, Eq, Debug)]
pub struct Seen {
    /// How many samples wait.
    pub waiting: u16,
    /// The value last set.
    pub last: Sample,
}

impl fmt::Display for Seen {
    ghost use Rattle.std.specs.Prelude.{Some};
    ghost use Rattle.ports.specs.Shown.{shown_seen};

    ghost output = { λ seen. Some (shown_seen seen) };

    fn fmt<W: fmt::Write>(&self, f: &mut fmt::Formatter<W>) -> fmt::Result {
        write!(f, "{} {}", self.waiting, self.last)
    }
}
