ghost use Rattle.std.specs.Prelude.{◌≡◌};
ghost use Rattle.ports.specs.Refusals.{number_of};

use std::fmt;

/// Why a call on a port, or a setting of one, was refused. A refusal alters nothing.
#[derive(Clone, Copy, PartialEq, Eq, Debug)]
pub enum Refusal {
    /// The channel is above 15.
    NoChannel = 51,
    /// As many samples wait on the channel as it is deep.
    Full = 52,
    /// A band's low end lies above its high end.
    FallingBand = 54,
}

impl Refusal {
    /// The number that the refusal goes by.
    pub fn number(self) -> u8
        ensures { result ≡ number_of self }
    {
        self as u8
    }
}

impl fmt::Display for Refusal {
    ghost use Rattle.std.specs.Prelude.{Some};
    ghost use Rattle.ports.specs.Shown.{shown_refusal};

    ghost output = { λ refusal. Some (shown_refusal refusal) };

    fn fmt<W: fmt::Write>(&self, f: &mut fmt::Formatter<W>) -> fmt::Result {
        write!(f, "refused {}", self.number())
    }
}
