//! A port that holds a ring of samples on each channel, in memory that it is lent.
#![tactic(auto)]

ghost use Rattle.std.specs.Prelude.{◌≡◌, ℕ, ◌<◌, ◌≤◌, [], ◌∷◌, length, slice_index_or};
ghost use Rattle.ports.specs.Layers.{blank};
ghost use Rattle.queue.specs.Lawful.{queued_lawful};
ghost use Rattle.queue.specs.Queued.{share, wrap, place, IsInside, empty_ring, queued};

use ports::channel::channel_index;
use ports::port::Port;
use ports::refusal::Refusal;
use ports::sample::Sample;
use ports::seen::Seen;

/// No channel is deeper.
pub const DEEPEST: usize = 4096;

// A head and a count beside lent memory: a port without a heap has no VecDeque.
/// Where one channel's samples lie, and the value last set on it.
#[derive(Clone, Copy)]
pub struct Ring {
    head: u16,
    count: u16,
    last: Sample,
}

/// A port whose channels share a memory: sample `i` of channel `c` lies at a place that is `c` past a multiple of 16.
/// No ring reaches past its channel's share.
#[derive(Drop)]
pub struct Queue<'a> {
    memory: &'a mut [Sample],
    rings: [Ring; 16],
    ghost inside: { (k : ℕ) → IsInside (share (length memory.now)) (slice_index_or rings k empty_ring) },
}

impl<'a> Queue<'a> {
    /// A queue with no sample waiting and 0 last set on every channel. Each is as deep as a sixteenth of the memory, and `DEEPEST` at most.
    pub fn new(memory: &'a mut [Sample]) -> Queue<'a>
        ensures means { queued result.memory.now result.rings ≡ blank (share (length memory.old)) }
        ensures lent { result.memory.ghost_name ≡ memory.entry.ghost_name }
    {
        let empty = Ring {
            head: 0,
            count: 0,
            last: 0,
        };
        Queue {
            memory,
            rings: [empty; 16],
        }
    }
}

/// A channel's share of a memory of `samples`.
fn share_of(samples: usize) -> u16
    ensures { result ≡ share samples }
{
    (samples / 16).min(DEEPEST) as u16
}

/// `x`, or what it is past `depth`.
fn wrapped(depth: u16, x: u16) -> u16
    ensures { result ≡ wrap depth x }
{
    if x < depth { x } else { x - depth }
}

impl Ring {
    /// Where sample `i` of channel `c` lies, if each channel has `depth` places.
    fn place(self, depth: u16, i: u16, c: usize) -> usize
        requires ring { IsInside depth self }
        requires bounds { (depth ≤ 4096) × ((i ≤ depth) × (c < 16)) }
        ensures { result ≡ place depth self.head i c }
    {
        wrapped(depth, self.head + i) as usize * 16 + c
    }
}

impl<'a> Port for Queue<'a> {
    ghost meaning = { λ q. queued q.memory.now q.rings };

    ghost lenders = { λ q. q.memory.ghost_name ∷ [] };

    ghost lawful = { λ q. queued_lawful q.memory.now q.rings };

    fn feed(&mut self, c: u8, v: Sample) -> Result<(), Refusal> {
        let i = channel_index(c)?;
        let depth = share_of(self.memory.len());
        let ring = self.rings[i];
        if ring.count >= depth {
            return Err(Refusal::Full);
        }
        let free = ring.place(depth, ring.count, i);
        self.memory[free] = v;
        self.rings[i].count = ring.count + 1;
        Ok(())
    }

    fn take(&mut self, c: u8) -> Result<Option<Sample>, Refusal> {
        let i = channel_index(c)?;
        let depth = share_of(self.memory.len());
        let ring = self.rings[i];
        if ring.count == 0 {
            return Ok(None);
        }
        let oldest = self.memory[ring.place(depth, 0, i)];
        self.rings[i] = Ring {
            head: wrapped(depth, ring.head + 1),
            count: ring.count - 1,
            last: ring.last,
        };
        Ok(Some(oldest))
    }

    // As a latch sets: what a channel keeps differs, and a function for both would be as long.
    fn set(&mut self, c: u8, v: Sample) -> Result<(), Refusal> {
        self.rings[channel_index(c)?].last = v;
        Ok(())
    }

    fn look(&self, c: u8) -> Result<Seen, Refusal> {
        let Ring { count, last, .. } = self.rings[channel_index(c)?];
        Ok(Seen {
            waiting: count,
            last,
        })
    }
}
