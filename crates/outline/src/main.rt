// Lists the syntax tree of the module on standard input, or refuses it with a number and a place.
#![tactic(auto)]

mod order;

use lexer::{MAX_SYMBOLS, SymbolRecord};
use order::outline;
use parser::{MAX_RECORDS, parse};
use std::io;
use std::io::Read;
use std::str::from_utf8;
use syntax::{NodeKind, TreeRecord};

// The name that a record has the place and the length of.
fn name(source: &[u8], record: TreeRecord) -> &str {
    source
        .get(record.place as usize..)
        .and_then(|behind| behind.get(..record.value))
        .and_then(|text| from_utf8(text).ok())
        .unwrap_or("")
}

// What a line says behind the kind: a name, a value, the place of an END, or an operator.
fn detail(rt: &HostRuntime, source: &[u8], record: TreeRecord) -> io::Result<()> {
    match record.kind {
        NodeKind::Name
        | NodeKind::Element
        | NodeKind::Call
        | NodeKind::Control
        | NodeKind::Closing
        | NodeKind::Constant
        | NodeKind::Procedure
        | NodeKind::Module => println!(rt; " {}", name(source, record)),
        NodeKind::Number
        | NodeKind::Negative
        | NodeKind::If
        | NodeKind::While
        | NodeKind::Loop
        | NodeKind::For => println!(rt; " {}", record.value),
        NodeKind::Unary | NodeKind::Binary => println!(rt; " {}", record.operator),
        _ => println!(rt; ""),
    }
}

// A list of kinds of its own: a function over a list of kinds would say no more.
// Whether a record has no place of its own.
fn is_placeless(kind: NodeKind) -> bool {
    matches!(
        kind,
        NodeKind::Range
            | NodeKind::Terms
            | NodeKind::Limits
            | NodeKind::Variable
            | NodeKind::Parameters
            | NodeKind::Heading
            | NodeKind::Block
    )
}

// A line of the outline: two blanks for each level, the place, the kind and what belongs to it.
fn show(rt: &HostRuntime, source: &[u8], record: TreeRecord, depth: usize) -> io::Result<()> {
    for _ in 0..depth {
        print!(rt; "  ")?;
    }
    if is_placeless(record.kind) {
        print!(rt; "- {:?}", record.kind)?;
    } else {
        print!(rt; "{} {:?}", record.place, record.kind)?;
    }
    detail(rt, source, record)
}

fn main(rt: HostRuntime) -> io::Result<()> {
    let mut source = Vec::new(rt.alloc());
    rt.stdin().read_to_end(&mut source)?;
    let mut symbols = [SymbolRecord::ZERO; MAX_SYMBOLS];
    let mut tree = [TreeRecord::ZERO; MAX_RECORDS];
    match parse(&source, &mut symbols, &mut tree) {
        Err(fault) => println!(rt; "{fault}"),
        Ok(parsed) => {
            for line in outline(rt.alloc(), &tree, parsed.root)? {
                if let Some(record) = tree.get(line.index) {
                    show(&rt, &source, *record, line.depth)?;
                }
            }
            println!(rt; "{} records", parsed.records)
        }
    }
}
