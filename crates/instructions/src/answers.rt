ghost use Rattle.std.specs.Prelude.{◌≡◌};
ghost use Rattle.instructions.specs.Steps.{spent};
ghost use Rattle.instructions.specs.Traps.{trap_number};

use std::fmt;

/// Why a board stops at an instruction.
#[derive(Clone, Copy, PartialEq, Eq, Debug)]
pub enum Trap {
    /// A result is no INTEGER.
    Range = 1,
    /// A divisor is below 1.
    Divisor = 2,
    /// An index is outside its bounds.
    Index = 3,
    /// A channel is outside 0 to 15.
    Channel = 4,
    /// A set element is outside 0 to 15.
    Element = 5,
    /// A 33rd activation was to be opened.
    Activations = 6,
    /// A function has reached its end.
    NoResult = 7,
}

impl Trap {
    /// The number that the trap goes by.
    pub fn number(self) -> u8
        ensures { result ≡ trap_number self }
    {
        self as u8
    }
}

/// Why an operation was not carried out.
// An error of two kinds, each by its name: an Option of a trap would not say what the other is.
#[derive(Clone, Copy, PartialEq, Eq, Debug)]
pub enum Fault {
    /// It has no effect here.
    Broken,
    /// It traps.
    Trap(Trap),
}

/// What an operation calls of the port.
#[derive(Clone, Copy, PartialEq, Eq, Debug)]
pub enum PortCall {
    /// It takes a sample.
    Take,
    /// It sets a value.
    Set,
}

/// Whether a board goes on.
// Four states: no Option or Result has so many.
#[derive(Clone, Copy, PartialEq, Eq, Debug)]
pub enum Status {
    /// It goes on.
    Running,
    /// It has come to an end.
    Ended,
    /// It has trapped, at a place.
    Trapped(Trap, u16),
    /// It has met an instruction without an effect, or none.
    Broken,
}

/// What a run comes to.
// Five outcomes: no Option or Result has so many.
#[derive(Clone, Copy, PartialEq, Eq, Debug)]
pub enum Outcome {
    /// The budget is spent.
    Running,
    /// The reading has ended.
    Ended,
    /// A trap, at a place.
    Trap(Trap, u16),
    /// A Take finds no sample: its channel and its place.
    Waits(u8, u16),
    /// An instruction without an effect, or none.
    Broken,
}

impl From<Status> for Outcome {
    ghost from_gives = { λ status outcome. outcome ≡ spent status };

    /// What a status answers where nothing more is executed.
    fn from(status: Status) -> Outcome
        ensures { result ≡ spent status }
    {
        match status {
            Status::Running => Outcome::Running,
            Status::Ended => Outcome::Ended,
            Status::Trapped(trap, place) => Outcome::Trap(trap, place),
            Status::Broken => Outcome::Broken,
        }
    }
}

impl fmt::Display for Outcome {
    ghost use Rattle.std.specs.Prelude.{Some};
    ghost use Rattle.instructions.specs.Shown.{shown_outcome};

    ghost output = { λ outcome. Some (shown_outcome outcome) };

    fn fmt<W: fmt::Write>(&self, f: &mut fmt::Formatter<W>) -> fmt::Result {
        match *self {
            Outcome::Running => write!(f, "running"),
            Outcome::Ended => write!(f, "ended"),
            Outcome::Trap(trap, place) => {
                let number = trap.number();
                write!(f, "trap {number} at {place}")
            }
            Outcome::Waits(channel, place) => write!(f, "waits {channel} at {place}"),
            Outcome::Broken => write!(f, "broken"),
        }
    }
}

/// What one instruction asks of whoever holds the port.
// Four answers of one kind, and no Option of three: that it was executed is an answer too.
#[derive(Clone, Copy, PartialEq, Eq, Debug)]
pub enum Act {
    /// Nothing: it was executed.
    Went,
    /// A sample from a channel, for an instruction at a place.
    Take(u8, u16),
    /// To set a channel to a value.
    Set(u8, i16),
    /// Nothing: there is nothing to execute.
    Stopped,
}

/// What one step comes to.
// Three answers of one kind, and no Result: that nothing more is executed is no failure.
#[derive(Clone, Copy, PartialEq, Eq, Debug)]
pub enum Step {
    /// An instruction was executed.
    Went,
    /// An instruction was executed, and it took a sample or set a value.
    Event,
    /// No instruction was executed.
    Stopped(Outcome),
}

/// What a run answers.
#[derive(Clone, Copy, PartialEq, Eq, Debug)]
pub struct Ran {
    /// What it came to.
    pub outcome: Outcome,
    /// The instructions executed.
    pub executed: u16,
    /// The takes and puts completed.
    pub events: u16,
}

impl fmt::Display for Ran {
    ghost use Rattle.std.specs.Prelude.{Some};
    ghost use Rattle.instructions.specs.Shown.{shown_run};

    ghost output = { λ ran. Some (shown_run ran) };

    fn fmt<W: fmt::Write>(&self, f: &mut fmt::Formatter<W>) -> fmt::Result {
        write!(f, "{} {} {}", self.outcome, self.executed, self.events)
    }
}
