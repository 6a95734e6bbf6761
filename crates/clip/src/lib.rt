//! A port that keeps what is set within a band.
#![tactic(auto)]

pub mod band;
pub mod bands;

ghost use Rattle.std.specs.Prelude.{◌≡◌};
ghost use Rattle.clip.specs.Clips.{clipped};
ghost use Rattle.clip.specs.Lawful.{clipped_lawful};

use crate::bands::Bands;
use ports::channel::channel_index;
use ports::port::Port;
use ports::refusal::Refusal;
use ports::sample::Sample;
use ports::seen::Seen;

/// A port that moves each value that is set to the nearest point of its channel's band.
#[derive(Drop)]
pub struct Clip<P> {
    lower: P,
    bands: Bands,
}

impl<P: Port> Clip<P> {
    /// A clip over a port.
    pub fn new(lower: P, bands: Bands) -> Clip<P>
        ensures means { clipped result.bands.each (P.Port.meaning result.lower) ≡ clipped bands.each (P.Port.meaning lower) }
        ensures lent { P.Port.lenders result.lower ≡ P.Port.lenders lower }
    {
        Clip { lower, bands }
    }
}

impl<P: Port> Port for Clip<P> {
    ghost meaning = { λ t. clipped t.bands.each (P.Port.meaning t.lower) };

    ghost lenders = { λ t. P.Port.lenders t.lower };

    ghost lawful = { λ t. clipped_lawful t.bands.each (P.Port.meaning t.lower) (P.Port.lawful t.lower) };

    // What a clip does not alter it passes on: a default in the trait would know no lower port.
    fn feed(&mut self, c: u8, v: Sample) -> Result<(), Refusal> {
        self.lower.feed(c, v)
    }

    fn take(&mut self, c: u8) -> Result<Option<Sample>, Refusal> {
        self.lower.take(c)
    }

    fn set(&mut self, c: u8, v: Sample) -> Result<(), Refusal> {
        let band = self.bands.each[channel_index(c)?];
        self.lower.set(c, band.nearest(v))
    }

    fn look(&self, c: u8) -> Result<Seen, Refusal> {
        self.lower.look(c)
    }
}
