//! A port that holds one sample on each channel.
#![tactic(auto)]

ghost use Rattle.std.specs.Prelude.{◌≡◌, []};
ghost use Rattle.latch.specs.Latched.{latched};
ghost use Rattle.latch.specs.Lawful.{latched_lawful};
ghost use Rattle.ports.specs.Layers.{blank};

use ports::channel::channel_index;
use ports::port::Port;
use ports::refusal::Refusal;
use ports::sample::Sample;
use ports::seen::Seen;

/// What one channel of a latch keeps.
#[derive(Clone, Copy)]
pub struct Slot {
    waiting: Option<Sample>,
    last: Sample,
}

/// A port whose channels are one deep.
#[derive(Drop)]
pub struct Latch {
    slots: [Slot; 16],
}

impl Latch {
    /// A latch with no sample waiting and 0 last set on every channel.
    pub fn new() -> Latch
        ensures { latched result.slots ≡ blank 1 }
    {
        let empty = Slot {
            waiting: None,
            last: 0,
        };
        Latch { slots: [empty; 16] }
    }
}

impl Port for Latch {
    ghost meaning = { λ t. latched t.slots };

    ghost lenders = { λ _. [] };

    ghost lawful = { λ t. latched_lawful t.slots };

    fn feed(&mut self, c: u8, v: Sample) -> Result<(), Refusal> {
        let i = channel_index(c)?;
        if self.slots[i].waiting.is_some() {
            return Err(Refusal::Full);
        }
        self.slots[i].waiting = Some(v);
        Ok(())
    }

    fn take(&mut self, c: u8) -> Result<Option<Sample>, Refusal> {
        Ok(self.slots[channel_index(c)?].waiting.take())
    }

    // As a queue sets: what a channel keeps differs, and a function for both would be as long.
    fn set(&mut self, c: u8, v: Sample) -> Result<(), Refusal> {
        self.slots[channel_index(c)?].last = v;
        Ok(())
    }

    fn look(&self, c: u8) -> Result<Seen, Refusal> {
        let Slot { waiting, last } = self.slots[channel_index(c)?];
        Ok(Seen {
            waiting: waiting.is_some() as u16,
            last,
        })
    }
}
