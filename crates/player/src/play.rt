use crate::serve::serve;
use crate::setup::{Use, set_up};
use ports::port::Port;
use script::command::Command;
use script::line::read_script;
use std::io;
use std::io::BufReader;

/// Answers commands on a port.
#[derive(Drop)]
struct Commands<'a> {
    rt: &'a HostRuntime,
}

impl Use<Command> for Commands<'_> {
    fn on<P: Port + Drop>(self, mut port: P, rest: &[Option<Command>]) -> io::Result<()> {
        serve(self.rt, &mut port, rest)
    }
}

/// Plays the script on standard input: answers each of its lines on standard output.
pub fn play(rt: &HostRuntime) -> io::Result<()> {
    let script: Vec<Option<Command>> = read_script(
        rt.alloc(),
        BufReader::new(rt.alloc(), rt.stdin())?,
    )?;
    set_up(rt, &script, Commands { rt })
}
