ghost use Rattle.std.specs.Prelude.{◌≡◌, replicate, is_ok, if◌then◌else◌, slice_set};
ghost use Rattle.integer.specs.Ends.{integer};
ghost use Rattle.clip.specs.Clips.{band_answer};
ghost use Rattle.ports.specs.Refusals.{numbered};

use crate::band::Band;
use ports::channel::channel_index;
use ports::refusal::Refusal;
use ports::sample::Sample;

/// A band for each channel.
// Beside the offsets of a trim: one struct for both would hold an array of a type parameter, which no generic struct may.
#[derive(Drop)]
pub struct Bands {
    pub(crate) each: [Band; 16],
}

impl Bands {
    /// The band of all INTEGERs for every channel.
    pub fn whole() -> Bands
        ensures { result.each ≡ replicate 16 integer }
    {
        Bands {
            each: [Band::whole(); 16],
        }
    }

    /// Gives channel `c` the band from `low` to `high`.
    pub fn set(&mut self, c: u8, low: Sample, high: Sample) -> Result<(), Refusal>
        ensures answer { numbered result ≡ band_answer c low high }
        ensures after { self.new.each ≡ (if is_ok result then slice_set self.old.each c (record { low = low; high = high }) else self.old.each) }
    {
        let i = channel_index(c)?;
        self.each[i] = Band::new(low, high)?;
        Ok(())
    }
}
