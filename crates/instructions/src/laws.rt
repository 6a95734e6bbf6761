// Laws that hold of all runs.
ghost use Rattle.instructions.specs.Laws.{NumbersReturn, RunsCompose, FeedingCommutes, TurnsBound};

/// Does nothing: its contract states the laws of the table's definitions.
pub fn laws_hold()
    ensures numbers { NumbersReturn }
    ensures compose { RunsCompose }
    ensures feeding { FeedingCommutes }
    ensures bounded { TurnsBound }
{}
