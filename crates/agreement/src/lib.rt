// The code of resolved programs, and its agreement with their meaning; no code but the theorems.
#![tactic(auto)]

ghost use Rattle.agreement.specs.Jumps.{JumpsBackAreRounds};
ghost use Rattle.agreement.specs.Claims.{CodeFits, NeverBroken, EventsAgree, OutcomesAgree, OutcomesAreReached, OutcomesAreBounded, EventsAreBounded};

/// Does nothing: its contract states that the code of a well-formed program does on a board what the program means.
pub fn code_agrees()
    ensures fits { CodeFits }
    ensures jumps { JumpsBackAreRounds }
    ensures unbroken { NeverBroken }
    ensures events { EventsAgree }
    ensures outcomes { OutcomesAgree }
    ensures reached { OutcomesAreReached }
    ensures bounded { OutcomesAreBounded }
    ensures timely { EventsAreBounded }
{}
