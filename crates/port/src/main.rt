//! Reads a script from standard input and answers each line.
// A program of its own, since the gate runs each program on one script.
#![tactic(auto)]

use player::play::play;
use std::io;

fn main(rt: HostRuntime) -> io::Result<()> {
    play(&rt)
}
