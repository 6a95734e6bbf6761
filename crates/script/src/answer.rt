use ports::sample::Sample;
use ports::seen::Seen;
use std::fmt;

/// The answer to a line of a script that was not refused.
// Five answers: no Option or Result has so many.
#[derive(Clone, Copy)]
pub enum Answer {
    /// It was done.
    Done,
    /// The feed was accepted.
    Fed,
    /// What a look saw.
    Seen(Seen),
    /// The sample that was taken, or none where none waited.
    Taken(Option<Sample>),
    /// No command, or none that serves now; nothing was altered.
    Unknown,
}

impl fmt::Display for Answer {
    ghost use Rattle.std.specs.Prelude.{Some};
    ghost use Rattle.script.specs.Shown.{shown_answer};

    ghost output = { λ answer. Some (shown_answer answer) };

    fn fmt<W: fmt::Write>(&self, f: &mut fmt::Formatter<W>) -> fmt::Result {
        match self {
            Answer::Done => write!(f, "ok"),
            Answer::Fed => write!(f, "fed"),
            Answer::Seen(seen) => write!(f, "{seen}"),
            Answer::Taken(Some(z)) => write!(f, "{z}"),
            Answer::Taken(None) => write!(f, "none"),
            Answer::Unknown => write!(f, "unknown command"),
        }
    }
}

/// What came of a call, to be printed: its value, or why it was refused.
#[derive(Drop)]
pub struct Told<T, E>(pub Result<T, E>);

impl<T: fmt::Display, E: fmt::Display> fmt::Display for Told<T, E> {
    ghost use Rattle.script.specs.Shown.{shown_told};

    ghost output = { λ told. shown_told T.output E.output told.0 };

    fn fmt<W: fmt::Write>(&self, f: &mut fmt::Formatter<W>) -> fmt::Result {
        match &self.0 {
            Ok(value) => write!(f, "{value}"),
            Err(why) => write!(f, "{why}"),
        }
    }
}
