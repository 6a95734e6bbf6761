ghost use Rattle.player.specs.Prepared.{Prepared};

use clip::Clip;
use latch::Latch;
use ports::port::Port;
use queue::Queue;
use script::answer::{Answer, Told};
use script::line::Line;
use script::settings::{Base, Settings};
use std::io;
use trim::Trim;

/// The samples that the deepest queue has a place for: more would never be used.
const MOST: u32 = 65_536;

/// What is done with a port once a script has set it up.
pub trait Use<L>: Drop {
    /// Uses the port, which is as a script sets it up, for the rest of the script.
    fn on<P: Port + Drop>(self, port: P, rest: &[Option<L>]) -> io::Result<()>
        requires { Prepared (P.Port.meaning port) };
}

/// Answers the settings at the start of a script, and hands back the rest of the script.
fn settle<'s, L: Line>(
    rt: &HostRuntime,
    settings: &mut Settings,
    script: &'s [Option<L>],
) -> io::Result<&'s [Option<L>]> {
    for (i, line) in script.iter().enumerate() {
        let answer = match *line {
            None => Ok(Answer::Unknown),
            Some(line) => match line.command().and_then(|command| settings.take_in(command)) {
                Some(answer) => answer,
                None => return Ok(&script[i..]),
            },
        };
        println!(rt; "{}", Told(answer))?;
    }
    Ok(&script[script.len()..])
}

/// Answers the settings at the start of a script, and uses a trim over a clip over the port that was chosen for the rest.
pub fn set_up<L: Line, U: Use<L>>(
    rt: &HostRuntime,
    script: &[Option<L>],
    user: U,
) -> io::Result<()> {
    let mut settings = Settings::new();
    let rest = settle(rt, &mut settings, script)?;
    let base = settings.base();
    let Settings { offsets, bands, .. } = settings;
    match base {
        Base::Queue(samples) => {
            let mut memory = vec![in rt.alloc(); 0; samples.min(MOST) as usize]?;
            let queue = Queue::new(&mut memory);
            user.on(Trim::new(Clip::new(queue, bands), offsets), rest)
        }
        Base::Latch => user.on(Trim::new(Clip::new(Latch::new(), bands), offsets), rest),
    }
}
