ghost use Rattle.std.specs.Prelude.{◌≡◌, length};
ghost use Rattle.piles.specs.Exchanges.{Exchanges};
ghost use Rattle.piles.specs.Piles.{piled};
ghost use Rattle.ports.specs.Calls.{feed_answer, feed_after, look_answer};
ghost use Rattle.ports.specs.Layers.{blank};
ghost use Rattle.ports.specs.Refusals.{numbered};
ghost use Rattle.queue.specs.Queued.{share};

use crate::exchange::{Exchanged, Handed, exchange};
use crate::holder::Holder;
use crate::layer::Layers;
use crate::pile::pair;
use latch::Latch;
use ports::port::Port;
use ports::refusal::Refusal;
use ports::sample::Sample;
use ports::seen::Seen;
use queue::Queue;
use trim::Trim;
use trim::offsets::Offsets;

/// An exchange through a pile of four over any port.
pub fn through_four<P: Port + Drop>(
    lower: P,
    layers: Layers,
    handed: Handed,
) -> Result<Exchanged, Refusal>
    ensures { Exchanges (piled layers (P.Port.meaning lower)) handed result }
{
    let Layers { high, low } = layers;
    let mut port = pair(pair(lower, low), high);
    exchange(&mut port, handed)
}

// A pile over a make, owned and lent, is a type of its own: these four state the law of `through_four` at each.

/// Through a pile that owns a queue.
pub fn over_queue(
    memory: &mut [Sample],
    layers: Layers,
    handed: Handed,
) -> Result<Exchanged, Refusal>
    ensures { Exchanges (piled layers (blank (share (length memory.old)))) handed result }
{
    through_four(Queue::new(memory), layers, handed)
}

/// Through a pile over a queue that it is lent.
pub fn over_lent_queue(
    memory: &mut [Sample],
    layers: Layers,
    handed: Handed,
) -> Result<Exchanged, Refusal>
    ensures { Exchanges (piled layers (blank (share (length memory.old)))) handed result }
{
    let mut queue = Queue::new(memory);
    through_four(&mut queue, layers, handed)
}

/// Through a pile that owns a latch.
pub fn over_latch(layers: Layers, handed: Handed) -> Result<Exchanged, Refusal>
    ensures { Exchanges (piled layers (blank 1)) handed result }
{
    through_four(Latch::new(), layers, handed)
}

/// Through a pile over a latch that it is lent.
pub fn over_lent_latch(layers: Layers, handed: Handed) -> Result<Exchanged, Refusal>
    ensures { Exchanges (piled layers (blank 1)) handed result }
{
    let mut latch = Latch::new();
    through_four(&mut latch, layers, handed)
}

/// A feed to a holder that owns a pile of four over a queue.
pub fn held(
    code: &[u16],
    memory: &mut [Sample],
    layers: Layers,
    c: u8,
    v: Sample,
) -> Result<(), Refusal>
    ensures { numbered result ≡ feed_answer (piled layers (blank (share (length memory.old)))) c }
{
    let Layers { high, low } = layers;
    let mut holder = Holder::new(code, pair(pair(Queue::new(memory), low), high));
    holder.feed(c, v)
}

/// A feed through a trim over a port that is lent, and then a look at that port itself.
pub fn seen_after<P: Port>(
    port: &mut P,
    offsets: Offsets,
    c: u8,
    v: Sample,
) -> Result<Seen, Refusal>
    ensures { numbered result ≡ look_answer (feed_after (P.Port.meaning port.old) c v) c }
{
    let mut trim = Trim::new(&mut *port, offsets);
    let _ = trim.feed(c, v);
    port.look(c)
}
