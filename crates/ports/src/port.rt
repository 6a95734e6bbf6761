ghost use Rattle.std.specs.Prelude.{◌≡◌, ℕ, List};
ghost use Rattle.ports.specs.Calls.{feed_answer, feed_after, take_answer, take_after, set_answer, set_after, look_answer};
ghost use Rattle.ports.specs.Channels.{Meaning};
ghost use Rattle.ports.specs.Law.{Lawful};
ghost use Rattle.ports.specs.Refusals.{numbered};

use crate::refusal::Refusal;
use crate::sample::Sample;
use crate::seen::Seen;

/// Sixteen channels, each with samples that wait and a value last set.
/// A channel above 15 is refused by every call.
pub trait Port {
    /// Depth, rules, waiting samples and value last set of every channel.
    ghost meaning: { Self → Meaning };

    /// The names of what is lent to the port: no call exchanges any of it.
    // Every call says so in a clause of its own: only by it does a caller know a reference inside a port again.
    ghost lenders: { Self → List ℕ };

    /// No channel is deeper than 4,096, and all that it holds and answers are INTEGERs.
    ghost lawful: { (p : Self) → Lawful (meaning p) };

    /// Puts the reading rule of `v` behind the samples that wait, or refuses if as many wait as the channel is deep.
    fn feed(&mut self, c: u8, v: Sample) -> Result<(), Refusal>
        ensures answer { numbered result ≡ feed_answer (meaning self.old) c }
        ensures after { meaning self.new ≡ feed_after (meaning self.old) c v }
        ensures lent { lenders self.new ≡ lenders self.old };

    /// Removes and answers the oldest sample, or answers none where none waits.
    fn take(&mut self, c: u8) -> Result<Option<Sample>, Refusal>
        ensures answer { numbered result ≡ take_answer (meaning self.old) c }
        ensures after { meaning self.new ≡ take_after (meaning self.old) c }
        ensures lent { lenders self.new ≡ lenders self.old };

    /// Makes the setting rule of `v` the value last set.
    fn set(&mut self, c: u8, v: Sample) -> Result<(), Refusal>
        ensures answer { numbered result ≡ set_answer c }
        ensures after { meaning self.new ≡ set_after (meaning self.old) c v }
        ensures lent { lenders self.new ≡ lenders self.old };

    /// How many samples wait, and the value last set.
    fn look(&self, c: u8) -> Result<Seen, Refusal>
        ensures { numbered result ≡ look_answer (meaning self.now) c };
}
