ghost use Rattle.std.specs.Prelude.{◌∷◌};

use crate::port::Port;
use crate::refusal::Refusal;
use crate::sample::Sample;
use crate::seen::Seen;

/// A port that is lent is a port, so that whoever lends one still has it afterwards.
// Each call is passed on as it is: a trait cannot write the four for a type that only refers.
impl<'b, P: Port> Port for &'b mut P {
    ghost meaning = { λ p. P.Port.meaning p.now };

    ghost lenders = { λ p. p.ghost_name ∷ P.Port.lenders p.now };

    ghost lawful = { λ p. P.Port.lawful p.now };

    fn feed(&mut self, c: u8, v: Sample) -> Result<(), Refusal> {
        (**self).feed(c, v)
    }

    fn take(&mut self, c: u8) -> Result<Option<Sample>, Refusal> {
        (**self).take(c)
    }

    fn set(&mut self, c: u8, v: Sample) -> Result<(), Refusal> {
        (**self).set(c, v)
    }

    fn look(&self, c: u8) -> Result<Seen, Refusal> {
        (**self).look(c)
    }
}
