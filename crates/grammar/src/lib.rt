// The grammar of the language as data, its trees, and the predictive reader; no code but the laws.
#![tactic(auto)]

ghost use Rattle.grammar.specs.Claims.{OneTree, SomeAnswer, OneAnswer, ReaderRight};

/// Does nothing: its contract states the laws of this crate's definitions.
pub fn laws_hold()
    ensures tree { OneTree }
    ensures some { SomeAnswer }
    ensures one { OneAnswer }
    ensures reader { ReaderRight }
{}
