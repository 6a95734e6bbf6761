//! The program `execute` on many code lists, each with a script.
//! A case is a line `= NAME`, a code list, a line `-` and a script.
#![tactic(auto)]

use console::play::play;
use std::alloc::AllocError;
use std::{fs, io};

/// Which part of a case a line belongs to.
#[derive(Clone, Copy)]
enum Part {
    Code,
    Script,
}

// Appends a line to a text.
fn add_line(text: &mut String, line: &str) -> Result<(), AllocError> {
    text.push_str(line)?;
    text.push('\n')
}

fn main(rt: HostRuntime) -> io::Result<()> {
    let cases = fs::read_to_string(&rt, "cases.txt")?;
    let mut code = String::new(rt.alloc());
    let mut script = String::new(rt.alloc());
    let mut part = None;
    for line in cases.as_str().lines() {
        if line.starts_with('=') {
            if part.is_some() {
                play(&rt, code.as_str(), script.as_str())?;
            }
            code.clear();
            script.clear();
            part = Some(Part::Code);
            println!(rt; "{line}")?;
        } else if line == "-" {
            part = part.map(|_| Part::Script);
        } else {
            match part {
                Some(Part::Code) => add_line(&mut code, line)?,
                Some(Part::Script) | None => add_line(&mut script, line)?,
            }
        }
    }
    play(&rt, code.as_str(), script.as_str())
}
