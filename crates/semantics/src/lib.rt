// The meaning of resolved programs; no code but the laws.
#![tactic(auto)]

ghost use Rattle.semantics.specs.Laws.{MoreFuel, OneOutcome, OneCourse, MoreSamples, EventsStay, ForTerms, WordsKeepTypes};
ghost use Rattle.semantics.specs.Examples.{ExamplesHold};

/// Does nothing: its contract states the laws of this crate's definitions.
pub fn laws_hold()
    ensures fuel { MoreFuel }
    ensures outcome { OneOutcome }
    ensures course { OneCourse }
    ensures samples { MoreSamples }
    ensures stay { EventsStay }
    ensures terms { ForTerms }
    ensures types { WordsKeepTypes }
    ensures examples { ExamplesHold }
{}
