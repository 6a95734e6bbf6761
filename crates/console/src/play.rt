use crate::code::read_code;
use crate::order::Order;
use crate::serve::serve;
use board::Board;
use instructions::instruction::Instruction;
use player::setup::{Use, set_up};
use ports::port::Port;
use script::line::read_line;
use std::alloc::{AllocError, Global};
use std::io;

// Answers orders on a board that runs a code list.
#[derive(Drop)]
struct Orders<'a> {
    rt: &'a HostRuntime,
    code: &'a [Instruction],
}

impl Use<Order> for Orders<'_> {
    fn on<P: Port + Drop>(self, port: P, rest: &[Option<Order>]) -> io::Result<()> {
        let mut board = Board::load(self.code, port);
        serve(self.rt, &mut board, rest)
    }
}

// What the lines of a script ask, read where they stand: the script is text already, so none is copied.
fn read_orders(heap: Global, text: &str) -> Result<Vec<Option<Order>>, AllocError> {
    let mut orders = Vec::new(heap);
    for line in text.lines() {
        if let Some(order) = read_line(heap, line)? {
            orders.push(order)?;
        }
    }
    Ok(orders)
}

/// Loads a code list on a board and answers a script, or answers the list's first malformed line.
pub fn play(rt: &HostRuntime, code: &str, script: &str) -> io::Result<()> {
    let code = match read_code(rt.alloc(), code)? {
        Ok(code) => code,
        Err(line) => return println!(rt; "bad line {line}"),
    };
    let orders = read_orders(rt.alloc(), script)?;
    set_up(rt, &orders, Orders { rt, code: &code })
}
