// Parses each source of a table, one to a line, and then each file that an argument names, and answers it with the
// number of its records or with its fault. A line that begins with % is passed over.
// The last lines show what lists of several lengths hold at their ends, before filled with a place of their own.
#![tactic(auto)]

use lexer::{MAX_SYMBOLS, SymbolRecord};
use parser::{MAX_RECORDS, parse};
use std::io::{BufRead, BufReader};
use std::{env, fs, io};
use syntax::{NodeKind, TreeRecord};
use vocabulary::Tag;

const FILLED_SYMBOL: SymbolRecord = SymbolRecord {
    tag: Tag::Comma,
    place: 7,
};

const FILLED_RECORD: TreeRecord = TreeRecord {
    kind: NodeKind::Name,
    operator: Tag::Comma,
    place: 9,
    value: 9,
    first: 9,
    second: 9,
};

// What a source is answered in lists of such records.
fn verdict(
    rt: &HostRuntime,
    source: &[u8],
    symbols: &mut [SymbolRecord],
    tree: &mut [TreeRecord],
) -> io::Result<()> {
    match parse(source, symbols, tree) {
        Err(fault) => print!(rt; " => {fault}"),
        Ok(parsed) => print!(rt; " => {} records", parsed.records),
    }
}

// One source, and its answer.
fn answer(rt: &HostRuntime, line: &str, source: &[u8]) -> io::Result<()> {
    let mut symbols = [SymbolRecord::ZERO; MAX_SYMBOLS];
    let mut tree = [TreeRecord::ZERO; MAX_RECORDS];
    print!(rt; "{line}")?;
    verdict(rt, source, &mut symbols, &mut tree)?;
    println!(rt; "")
}

// What lists of so many records hold at their ends: the places of the first and the last of each.
// Also in the program that tries the lexer, which fills one list: in common is the loop over two records.
fn held_after(
    rt: &HostRuntime,
    symbol_count: usize,
    record_count: usize,
    source: &[u8],
) -> io::Result<()> {
    let mut symbols = vec![in rt.alloc(); FILLED_SYMBOL; symbol_count]?;
    let mut tree = vec![in rt.alloc(); FILLED_RECORD; record_count]?;
    print!(rt; "{symbol_count} symbols, {record_count} records")?;
    verdict(rt, source, &mut symbols, &mut tree)?;
    print!(rt; ", then")?;
    for record in symbols.first().into_iter().chain(symbols.last()) {
        print!(rt; " {}", record.place)?;
    }
    for record in tree.first().into_iter().chain(tree.last()) {
        print!(rt; " {}", record.place)?;
    }
    println!(rt; "")
}

fn main(rt: HostRuntime) -> io::Result<()> {
    for line in BufReader::new(rt.alloc(), rt.stdin())?.lines(rt.alloc()) {
        let line = line?;
        if line.as_bytes().first() != Some(&b'%') {
            answer(&rt, line.as_str(), line.as_bytes())?;
        }
    }
    for name in env::args(&rt)?.skip(1) {
        let source = fs::read(&rt, name.as_str())?;
        answer(&rt, name.as_str(), &source)?;
    }
    held_after(&rt, MAX_SYMBOLS - 1, MAX_RECORDS, b"MODULE M; END M.")?;
    held_after(&rt, MAX_SYMBOLS, MAX_RECORDS - 1, b"MODULE M; END M.")?;
    held_after(&rt, MAX_SYMBOLS + 1, MAX_RECORDS + 1, b"MODULE ?")?;
    held_after(&rt, MAX_SYMBOLS + 1, MAX_RECORDS + 1, b"MODULE M; END")?;
    held_after(&rt, MAX_SYMBOLS + 1, MAX_RECORDS + 1, b"MODULE M; END M.")
}
