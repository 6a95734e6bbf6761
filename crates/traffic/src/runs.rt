ghost use Rattle.std.specs.Prelude.{◌≡◌, min, length, take, drop};
ghost use Rattle.traffic.specs.Runs.{Does, done, Ran, Conserved};

use crate::action::{Action, Outcome};
use ports::port::Port;
use ports::refusal::Refusal;

/// Carries out one action on channel `c`.
fn act<P: Port>(port: &mut P, c: u8, action: Action) -> Result<Outcome, Refusal>
    ensures does { Does (P.Port.meaning port.old) c action result }
    ensures after { P.Port.meaning port.new ≡ done (P.Port.meaning port.old) c action }
    ensures lent { P.Port.lenders port.new ≡ P.Port.lenders port.old }
{
    match action {
        Action::Feed(v) => {
            port.feed(c, v)?;
            Ok(Outcome::Fed)
        }
        Action::Take => Ok(Outcome::Taken(port.take(c)?)),
    }
}

/// Carries out actions on channel `c` in order, as many as there is room for outcomes, and answers how many.
pub fn carry_out<P: Port>(
    port: &mut P,
    c: u8,
    actions: &[Action],
    outcomes: &mut [Result<Outcome, Refusal>],
) -> usize
    ensures count { result ≡ min (length actions.now) (length outcomes.old) }
    ensures ran { Ran (P.Port.meaning port.old) c (take result actions.now) (take result outcomes.new) (P.Port.meaning port.new) }
    ensures conserved { Conserved (P.Port.meaning port.old) c (take result actions.now) (take result outcomes.new) (P.Port.meaning port.new) }
    ensures rest { drop result outcomes.new ≡ drop result outcomes.old }
    ensures lent { P.Port.lenders port.new ≡ P.Port.lenders port.old }
{
    let count = actions.len().min(outcomes.len());
    // By index: `enumerate` over `iter_mut` would look the action up by its index too, and behind a `zip` nothing is known of what was written.
    for i in 0..count {
        outcomes[i] = act(port, c, actions[i]);
    }
    count
}
