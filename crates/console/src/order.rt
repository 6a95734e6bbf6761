ghost use Rattle.std.specs.Prelude.{◌≡◌, pos};
ghost use Rattle.console.specs.Orders.{port_command};
ghost use Rattle.number.specs.Numbers.{Number, whole};

use number::read;
use script::command::Command;
use script::line::Line;

/// What a line of a script asks of a board.
#[derive(Clone, Copy)]
pub enum Order {
    /// A setting of the port, a feed or a look.
    Port(Command),
    /// A run of at most this many instructions.
    Run(u16),
    /// A global word.
    Peek(u16),
}

// A number from 0 to 65,535.
fn count(word: &str) -> Option<u16>
    ensures { Number (pos 0) (pos 65535) word.now (whole result) }
{
    read::<u16>(word)
}

impl Line for Order {
    fn from_words(words: &[&str]) -> Option<Order> {
        match *words {
            ["run", budget] => Some(Order::Run(count(budget)?)),
            ["peek", word] => Some(Order::Peek(count(word)?)),
            _ => match Command::from_words(words)? {
                Command::Take { .. } | Command::Set { .. } => None,
                command => Some(Order::Port(command)),
            },
        }
    }

    fn command(self) -> Option<Command>
        ensures { result ≡ port_command self }
    {
        match self {
            Order::Port(command) => Some(command),
            Order::Run(_) | Order::Peek(_) => None,
        }
    }
}
