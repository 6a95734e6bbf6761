use instructions::answers::Ran;
use ports::refusal::Refusal;
use script::answer::{Answer, Told};
use std::fmt;

/// The answer to a line of a script.
#[derive(Clone, Copy)]
pub enum Reply {
    /// What a port answers.
    Port(Result<Answer, Refusal>),
    /// What a run came to.
    Ran(Ran),
    /// A global word.
    Word(Result<i32, board::refusal::Refusal>),
}

impl fmt::Display for Reply {
    ghost use Rattle.std.specs.Prelude.{Some};
    ghost use Rattle.console.specs.Shown.{shown_reply};

    ghost output = { λ reply. Some (shown_reply reply) };

    fn fmt<W: fmt::Write>(&self, f: &mut fmt::Formatter<W>) -> fmt::Result {
        match *self {
            Reply::Port(answer) => write!(f, "{}", Told(answer)),
            Reply::Ran(ran) => write!(f, "{ran}"),
            Reply::Word(word) => write!(f, "{}", Told(word)),
        }
    }
}
