// Laws that hold of all integers and between any two ends. The other calls' contracts state them at what they answer.
ghost use Rattle.integer.specs.Bands.{HeldIsNearest};
ghost use Rattle.integer.specs.Division.{PairIsUnique, PairIsWithin, ExamplesHold};
ghost use Rattle.integer.specs.Ends.{WithinIsTested};
ghost use Rattle.integer.specs.Sets.{WordIsSet, ElementsFix};

/// Does nothing: its contract states the laws of this crate's definitions.
pub fn laws_hold()
    ensures tested { WithinIsTested }
    ensures held { HeldIsNearest }
    ensures unique { PairIsUnique }
    ensures within { PairIsWithin }
    ensures examples { ExamplesHold }
    ensures word { WordIsSet }
    ensures fixed { ElementsFix }
{}
