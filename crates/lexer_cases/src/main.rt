// Scans each source of a table, one to a line, and then each file that an argument names, and answers it with
// its symbols or its fault.
// A line that begins with % is passed over. In a source, \t \r \n and \\ are a tab, a carriage return, a
// line feed and a backslash, \xHH is the byte HH, and \#NNNNNc is the byte c, NNNNN times.
#![tactic(auto)]

mod decode;

use decode::decode;
use lexer::{MAX_SYMBOLS, Symbol, SymbolRecord, next_symbol, scan};
use std::io::{BufRead, BufReader};
use std::{env, fs, io};
use vocabulary::{Tag, number_value};

const SHOWN: usize = 12;

// What a number at a place stands for: a record keeps no text.
fn value_at(source: &[u8], place: usize) -> Option<i32> {
    match next_symbol(source, place).ok()?.symbol {
        Symbol::Number(text) => number_value(text).ok(),
        _ => None,
    }
}

// The place and the tag of a symbol, and the value of a number.
fn show(rt: &HostRuntime, source: &[u8], record: SymbolRecord) -> io::Result<()> {
    let SymbolRecord { tag, place } = record;
    match value_at(source, place as usize) {
        Some(value) => print!(rt; " {place} {tag}={value}"),
        None => print!(rt; " {place} {tag}"),
    }
}

// The first symbols, and how many there are.
fn list(rt: &HostRuntime, source: &[u8], records: &[SymbolRecord]) -> io::Result<()> {
    for record in records.iter().take(SHOWN) {
        show(rt, source, *record)?;
    }
    println!(rt; " ({})", records.len())
}

// One source, and its answer.
fn answer(rt: &HostRuntime, line: &str, source: &[u8]) -> io::Result<()> {
    print!(rt; "{line} =>")?;
    let mut records = [SymbolRecord::ZERO; MAX_SYMBOLS];
    match scan(source, &mut records) {
        Err(fault) => println!(rt; " {fault}"),
        Ok(count) => list(rt, source, &records[..count.min(MAX_SYMBOLS)]),
    }
}

// What a list of so many records, each at place 7, holds at its ends after a scan.
// Also in the program that tries the parser, which fills two lists: in common is the loop over two records.
fn held_after(rt: &HostRuntime, size: usize, source: &[u8]) -> io::Result<()> {
    let mut records = vec![in rt.alloc(); SymbolRecord {
        tag: Tag::Comma,
        place: 7
    }; size]?;
    if let Err(fault) = scan(source, &mut records) {
        print!(rt; "{size} records => {fault}, then")?;
    }
    for record in records.first().into_iter().chain(records.last()) {
        print!(rt; " {}", record.place)?;
    }
    println!(rt; "")
}

fn main(rt: HostRuntime) -> io::Result<()> {
    for line in BufReader::new(rt.alloc(), rt.stdin())?.lines(rt.alloc()) {
        let line = line?;
        if line.as_bytes().first() != Some(&b'%') {
            let source = decode(rt.alloc(), line.as_bytes())?;
            answer(&rt, line.as_str(), &source)?;
        }
    }
    for name in env::args(&rt)?.skip(1) {
        let source = fs::read(&rt, name.as_str())?;
        answer(&rt, name.as_str(), &source)?;
    }
    held_after(&rt, MAX_SYMBOLS - 1, b"a")?;
    held_after(&rt, MAX_SYMBOLS + 1, b" a ?")
}
