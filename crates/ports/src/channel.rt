ghost use Rattle.std.specs.Prelude.{◌≡◌, ◌<◌, ◌≤◌, MatchResult};
ghost use Rattle.ports.specs.Channels.{channels};

use crate::refusal::Refusal;
use crate::sample::CHANNELS;

/// The index of channel `c` among the channels that there are.
pub fn channel_index(c: u8) -> Result<usize, Refusal>
    ensures { MatchResult result (λ i. (i ≡ c) × (c < channels)) (λ why. (why ≡ Refusal.NoChannel) × (channels ≤ c)) }
{
    if c < CHANNELS {
        Ok(c as usize)
    } else {
        Err(Refusal::NoChannel)
    }
}
