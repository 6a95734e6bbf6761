ghost use Rattle.std.specs.Prelude.{◌≡◌};

use crate::line::Line;
use ports::sample::Sample;

/// What a line of a script asks.
// Eight commands: that one of them has no value makes it no Option.
#[derive(Clone, Copy)]
pub enum Command {
    /// A queue over memory of this many samples is the port under all.
    Queue(u32),
    /// A latch is the port under all.
    Latch,
    /// The offset of a channel.
    Trim {
        channel: u8,
        offset: Sample,
    },
    /// The band of a channel.
    Clip {
        channel: u8,
        low: Sample,
        high: Sample,
    },
    /// Feed a value.
    Feed {
        channel: u8,
        value: Sample,
    },
    /// How many samples wait, and the value last set.
    Look {
        channel: u8,
    },
    /// Take the oldest sample.
    Take {
        channel: u8,
    },
    /// Set a value.
    Set {
        channel: u8,
        value: Sample,
    },
}

impl Line for Command {
    fn from_words(words: &[&str]) -> Option<Command> {
        match *words {
            ["port", "queue", samples] => Some(Command::Queue(number::size(samples)?)),
            ["port", "latch"] => Some(Command::Latch),
            ["trim", channel, offset] => Some(Command::Trim {
                channel: number::channel(channel)?,
                offset: number::sample(offset)?,
            }),
            ["clip", channel, low, high] => Some(Command::Clip {
                channel: number::channel(channel)?,
                low: number::sample(low)?,
                high: number::sample(high)?,
            }),
            ["feed", channel, value] => Some(Command::Feed {
                channel: number::channel(channel)?,
                value: number::sample(value)?,
            }),
            ["look", channel] => Some(Command::Look {
                channel: number::channel(channel)?,
            }),
            ["take", channel] => Some(Command::Take {
                channel: number::channel(channel)?,
            }),
            ["set", channel, value] => Some(Command::Set {
                channel: number::channel(channel)?,
                value: number::sample(value)?,
            }),
            _ => None,
        }
    }

    fn command(self) -> Option<Command>
        ensures { result ≡ Some self }
    {
        Some(self)
    }
}
