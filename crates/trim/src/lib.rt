//! A port that takes an offset from what is read.
#![tactic(auto)]

pub mod offsets;

ghost use Rattle.std.specs.Prelude.{◌≡◌};
ghost use Rattle.trim.specs.Trims.{less, trimmed};
ghost use Rattle.trim.specs.Lawful.{trimmed_lawful};

use crate::offsets::Offsets;
use integer::saturate;
use ports::port::Port;
use ports::refusal::Refusal;
use ports::sample::Sample;
use ports::seen::Seen;

/// A port that takes a channel's offset from each sample of the port below.
#[derive(Drop)]
pub struct Trim<P> {
    lower: P,
    offsets: Offsets,
}

impl<P: Port> Trim<P> {
    /// A trim over a port.
    pub fn new(lower: P, offsets: Offsets) -> Trim<P>
        ensures means { trimmed result.offsets.each (P.Port.meaning result.lower) ≡ trimmed offsets.each (P.Port.meaning lower) }
        ensures lent { P.Port.lenders result.lower ≡ P.Port.lenders lower }
    {
        Trim { lower, offsets }
    }
}

/// A sample less an offset, held at the ends of INTEGER.
fn lessened(z: Sample, offset: Sample) -> Sample
    ensures { result ≡ less offset z }
{
    saturate(z as i64 - offset as i64) as Sample
}

impl<P: Port> Port for Trim<P> {
    ghost meaning = { λ t. trimmed t.offsets.each (P.Port.meaning t.lower) };

    ghost lenders = { λ t. P.Port.lenders t.lower };

    ghost lawful = { λ t. trimmed_lawful t.offsets.each (P.Port.meaning t.lower) (P.Port.lawful t.lower) };

    // What a trim does not alter it passes on: a default in the trait would know no lower port.
    fn feed(&mut self, c: u8, v: Sample) -> Result<(), Refusal> {
        self.lower.feed(c, v)
    }

    fn take(&mut self, c: u8) -> Result<Option<Sample>, Refusal> {
        // The port below refuses a channel that is not there.
        let got = self.lower.take(c)?;
        let offset = self.offsets.each[c as usize];
        Ok(got.map(|z| lessened(z, offset)))
    }

    fn set(&mut self, c: u8, v: Sample) -> Result<(), Refusal> {
        self.lower.set(c, v)
    }

    fn look(&self, c: u8) -> Result<Seen, Refusal> {
        self.lower.look(c)
    }
}
