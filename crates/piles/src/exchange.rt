ghost use Rattle.piles.specs.Exchanges.{Exchanges};

use ports::port::Port;
use ports::refusal::Refusal;
use ports::sample::Sample;
use ports::seen::Seen;

/// What an exchange hands to a channel.
#[derive(Clone, Copy)]
pub struct Handed {
    /// The channel.
    pub channel: u8,
    /// The value that is fed.
    pub fed: Sample,
    /// The value that is set.
    pub set: Sample,
}

/// What came of an exchange.
#[derive(Clone, Copy)]
pub struct Exchanged {
    /// What was seen after the feed and the set.
    pub seen: Seen,
    /// The sample taken last of all.
    pub taken: Option<Sample>,
}

/// Feeds a value and sets one, looks and takes, all on one channel.
pub fn exchange<P: Port>(port: &mut P, handed: Handed) -> Result<Exchanged, Refusal>
    ensures { Exchanges (P.Port.meaning port.old) handed result }
{
    let Handed { channel, fed, set } = handed;
    port.feed(channel, fed)?;
    port.set(channel, set)?;
    let seen = port.look(channel)?;
    let taken = port.take(channel)?;
    Ok(Exchanged { seen, taken })
}
