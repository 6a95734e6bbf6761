//! The program `port` on a script for a latch.
// A program of its own, since the gate runs each program on one script.
#![tactic(auto)]

use player::play::play;
use std::io;

fn main(rt: HostRuntime) -> io::Result<()> {
    play(&rt)
}
