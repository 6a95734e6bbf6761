ghost use Rattle.std.specs.Prelude.{◌≡◌};
ghost use Rattle.ports.specs.Calls.{feed_answer, feed_after, take_answer, take_after};
ghost use Rattle.ports.specs.Refusals.{numbered};

use ports::port::Port;
use ports::refusal::Refusal;
use ports::sample::Sample;

/// Something that owns its port and borrows something else.
#[derive(Drop)]
pub struct Holder<'a, P> {
    code: &'a [u16],
    port: P,
}

impl<'a, P: Port> Holder<'a, P> {
    /// A holder of a port.
    pub fn new(code: &'a [u16], port: P) -> Holder<'a, P>
        ensures means { P.Port.meaning result.port ≡ P.Port.meaning port }
        ensures lent { P.Port.lenders result.port ≡ P.Port.lenders port }
    {
        Holder { code, port }
    }

    // The calls are passed on under names of its own: what holds a port, as a board does, need be no port.
    /// Feeds the port.
    pub fn feed(&mut self, c: u8, v: Sample) -> Result<(), Refusal>
        ensures answer { numbered result ≡ feed_answer (P.Port.meaning self.old.port) c }
        ensures after { P.Port.meaning self.new.port ≡ feed_after (P.Port.meaning self.old.port) c v }
        ensures lent { P.Port.lenders self.new.port ≡ P.Port.lenders self.old.port }
    {
        self.port.feed(c, v)
    }

    /// Takes from the port.
    pub fn take(&mut self, c: u8) -> Result<Option<Sample>, Refusal>
        ensures answer { numbered result ≡ take_answer (P.Port.meaning self.old.port) c }
        ensures after { P.Port.meaning self.new.port ≡ take_after (P.Port.meaning self.old.port) c }
        ensures lent { P.Port.lenders self.new.port ≡ P.Port.lenders self.old.port }
    {
        self.port.take(c)
    }
}
