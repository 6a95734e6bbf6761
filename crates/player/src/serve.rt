ghost use Rattle.std.specs.Prelude.{◌≡◌, IfOk};
ghost use Rattle.std.specs.List.{FoldsTo};
ghost use Rattle.player.specs.Lines.{Answered};
ghost use Rattle.player.specs.Replies.{reply, replied};
ghost use Rattle.ports.specs.Refusals.{numbered};

use ports::port::Port;
use ports::refusal::Refusal;
use script::answer::{Answer, Told};
use script::command::Command;
use std::{fmt, io};

/// The answer of a port to a command.
fn answer<P: Port>(port: &mut P, command: Command) -> Result<Answer, Refusal>
    ensures answer { numbered result ≡ reply (P.Port.meaning port.old) command }
    ensures after { P.Port.meaning port.new ≡ replied (P.Port.meaning port.old) command }
    ensures lent { P.Port.lenders port.new ≡ P.Port.lenders port.old }
{
    match command {
        Command::Feed { channel, value } => {
            port.feed(channel, value)?;
            Ok(Answer::Fed)
        }
        Command::Look { channel } => Ok(Answer::Seen(port.look(channel)?)),
        Command::Take { channel } => Ok(Answer::Taken(port.take(channel)?)),
        Command::Set { channel, value } => {
            port.set(channel, value)?;
            Ok(Answer::Done)
        }
        _ => Ok(Answer::Unknown),
    }
}

/// Answers each line of a script.
pub fn answer_lines<L: Copy, A: fmt::Display + Drop, F: FnMut(L) -> A>(
    rt: &HostRuntime,
    script: &[Option<L>],
    mut answer: F,
) -> io::Result<()>
    requires { F.IsAlwaysCallable answer }
    ensures { IfOk result (λ _. (last : F) × FoldsTo (Answered F.step) answer script.now last) }
{
    // By what is left of the script: behind a `for` nothing is known of the calls that are still to come.
    let mut rest = script;
    while let Some((line, behind)) = rest.split_first() {
        match *line {
            Some(line) => println!(rt; "{}", answer(line))?,
            None => println!(rt; "{}", Answer::Unknown)?,
        }
        rest = behind;
    }
    Ok(())
}

/// Answers the lines of a script on a port.
pub fn serve<P: Port>(
    rt: &HostRuntime,
    port: &mut P,
    script: &[Option<Command>],
) -> io::Result<()> {
    answer_lines(rt, script, |command| Told(answer(port, command)))
}
