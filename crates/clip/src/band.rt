ghost use Rattle.std.specs.Prelude.{◌≡◌};
ghost use Rattle.integer.specs.Ends.{integer};
ghost use Rattle.clip.specs.Clips.{nearest, judged};
ghost use Rattle.ports.specs.Refusals.{numbered};
ghost use Rattle.ports.specs.Stored.{stored};

use integer::clamp;
use ports::refusal::Refusal;
use ports::sample::Sample;
use std::marker::Model;

/// A band from a low to a high end. The low end never lies above the high end.
#[derive(Clone, Copy)]
pub struct Band {
    low: Sample,
    high: Sample,
}

impl Model for Band {
    ghost use Rattle.std.specs.Prelude.{◌≤ℤ◌};
    ghost use Rattle.integer.specs.Ends.{Ends};

    ghost Value = { Ends };

    ghost view = { λ b. record { low = b.low; high = b.high } };

    ghost invariant = { λ b. b.low ≤ℤ b.high };

    ghost inverse = { λ e. record { low = e.low; high = e.high } };
}

impl Band {
    /// The band of all INTEGERs.
    pub fn whole() -> Band
        ensures { result ≡ integer }
    {
        Band {
            low: Sample::MIN,
            high: Sample::MAX,
        }
    }

    /// The band from `low` to `high`.
    pub fn new(low: Sample, high: Sample) -> Result<Band, Refusal>
        ensures { numbered result ≡ judged low high }
    {
        if low > high {
            return Err(Refusal::FallingBand);
        }
        Ok(Band { low, high })
    }

    /// The point of the band that is nearest to `v`.
    pub fn nearest(self, v: Sample) -> Sample
        ensures { result ≡ nearest (stored self.low) (stored self.high) v }
    {
        // The one clamp of INTEGERs, and not a sample's own: what is proved of it holds here.
        clamp(v as i32, self.low as i32, self.high as i32) as Sample
    }
}
