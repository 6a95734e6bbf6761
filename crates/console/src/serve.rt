ghost use Rattle.std.specs.Prelude.{◌≡◌};
ghost use Rattle.board.specs.Seen.{view};
ghost use Rattle.console.specs.Replies.{port_reply, port_replied, Replies};
ghost use Rattle.ports.specs.Refusals.{numbered};

use crate::order::Order;
use crate::reply::Reply;
use board::Board;
use player::serve::answer_lines;
use ports::port::Port;
use ports::refusal::Refusal;
use script::answer::Answer;
use script::command::Command;
use std::io;

// The answer of a board's port to a command.
// Beside that of a port: a board is none, and a trait for both would have these two calls alone.
fn answer_port<P: Port>(board: &mut Board<P>, command: Command) -> Result<Answer, Refusal>
    ensures answer { numbered result ≡ port_reply (view P.Port.meaning board.old) command }
    ensures after { view P.Port.meaning board.new ≡ port_replied (view P.Port.meaning board.old) command }
{
    match command {
        Command::Feed { channel, value } => {
            board.feed(channel, value)?;
            Ok(Answer::Fed)
        }
        Command::Look { channel } => Ok(Answer::Seen(board.look(channel)?)),
        _ => Ok(Answer::Unknown),
    }
}

// The answer of a board to an order.
fn answer<P: Port>(board: &mut Board<P>, order: Order) -> Reply
    ensures { Replies (view P.Port.meaning board.old) order result (view P.Port.meaning board.new) }
{
    match order {
        Order::Run(budget) => Reply::Ran(board.run(budget)),
        Order::Peek(word) => Reply::Word(board.peek(word)),
        Order::Port(command) => Reply::Port(answer_port(board, command)),
    }
}

/// Answers the lines of a script on a board.
pub fn serve<P: Port>(
    rt: &HostRuntime,
    board: &mut Board<P>,
    orders: &[Option<Order>],
) -> io::Result<()> {
    answer_lines(rt, orders, |order| answer(board, order))
}
