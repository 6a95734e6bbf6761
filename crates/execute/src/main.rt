//! Runs the code list in a file on a board, and answers the script on standard input.
#![tactic(auto)]

use console::play::play;
use std::io::Read;
use std::{env, fs, io};

fn main(rt: HostRuntime) -> io::Result<()> {
    let mut arguments = env::args(&rt)?;
    let _program = arguments.next();
    match arguments.next() {
        Some(file) => {
            let code = fs::read_to_string(&rt, file.as_str())?;
            let mut script = String::new(rt.alloc());
            rt.stdin().read_to_string(&mut script)?;
            play(&rt, code.as_str(), script.as_str())
        }
        None => println!(rt; "usage: execute FILE"),
    }
}
