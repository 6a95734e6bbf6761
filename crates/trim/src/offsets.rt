ghost use Rattle.std.specs.Prelude.{◌≡◌, replicate, pos, is_ok, if◌then◌else◌, slice_set};
ghost use Rattle.ports.specs.Calls.{set_answer};
ghost use Rattle.ports.specs.Refusals.{numbered};

use ports::channel::channel_index;
use ports::refusal::Refusal;
use ports::sample::Sample;

/// An offset for each channel.
#[derive(Drop)]
pub struct Offsets {
    pub(crate) each: [Sample; 16],
}

impl Offsets {
    /// The offset 0 for every channel.
    pub fn none() -> Offsets
        ensures { result.each ≡ replicate 16 (pos 0) }
    {
        Offsets { each: [0; 16] }
    }

    /// Gives channel `c` an offset.
    pub fn set(&mut self, c: u8, offset: Sample) -> Result<(), Refusal>
        ensures answer { numbered result ≡ set_answer c }
        ensures after { self.new.each ≡ (if is_ok result then slice_set self.old.each c offset else self.old.each) }
    {
        self.each[channel_index(c)?] = offset;
        Ok(())
    }
}
