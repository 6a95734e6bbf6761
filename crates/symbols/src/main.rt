// Lists the symbols of the module on standard input, or refuses it with a number and a place.
#![tactic(auto)]

use lexer::{MAX_SYMBOLS, SymbolRecord, next_symbol, scan};
use std::io;
use std::io::Read;
use std::str::from_utf8;

// The text of the symbol at a place: a record keeps no text.
fn text_at(source: &[u8], place: usize) -> &str {
    next_symbol(source, place)
        .ok()
        .and_then(|lexeme| from_utf8(lexeme.symbol.text()).ok())
        .unwrap_or("")
}

// A line for the symbol of one record: its place, its tag and its text.
fn show(rt: &HostRuntime, source: &[u8], record: SymbolRecord) -> io::Result<()> {
    let SymbolRecord { tag, place } = record;
    let text = text_at(source, place as usize);
    println!(rt; "{place} {tag} {text}")
}

fn main(rt: HostRuntime) -> io::Result<()> {
    let mut source = Vec::new(rt.alloc());
    rt.stdin().read_to_end(&mut source)?;
    let mut records = [SymbolRecord::ZERO; MAX_SYMBOLS];
    match scan(&source, &mut records) {
        Err(fault) => println!(rt; "{fault}"),
        Ok(count) => {
            for record in records.iter().take(count) {
                show(&rt, &source, *record)?;
            }
            println!(rt; "{count} symbols")
        }
    }
}
