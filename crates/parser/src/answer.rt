ghost use Rattle.std.specs.Prelude.{◌≡◌, ℕ, ◌-◌, ◌<◌, ◌≤◌, ◌++◌, length, take, replicate, Ok, Err};
ghost use Rattle.faults.specs.declared.kind.FaultKind.TheVariants.{ListTooShort};
ghost use Rattle.lexer.specs.Records.{zero_record};
ghost use Rattle.lexer.specs.Scan.{fault, symbol_limit};
ghost use Rattle.grammar.specs.Claims.{OneTree, OneAnswer};
ghost use Rattle.parser.specs.Parsing.{lexical, Descends, Parses as Answered, placed, zero_node, Short, ExpressionsBegin};
ghost use Rattle.syntax.specs.Steps.{tree_limit};

use crate::declarations::module;
use faults::{Fault, FaultKind};
use lexer::{MAX_SYMBOLS, SymbolRecord, scan};
use syntax::{Cursor, Descent, Stop, TreeRecord};

/// So many tree records are enough for every source.
pub const MAX_RECORDS: usize = 2048;

/// What was parsed: the index of the tree's root, and the number of its records.
#[derive(Clone, Copy)]
pub struct Parsed {
    pub root: usize,
    pub records: usize,
}

/// Zeroes all records.
fn clear(tree: &mut [TreeRecord])
    ensures { tree.new ≡ replicate (length tree.old) zero_node }
{
    tree.fill(TreeRecord::ZERO);
}

/// Zeroes the records from an index on.
// By index: the first so many records of a lent list are in use.
fn clear_from(tree: &mut [TreeRecord], from: usize)
    requires { from ≤ length tree.old }
    ensures { tree.new ≡ take from tree.old ++ replicate (length tree.old - from) zero_node }
{
    clear(&mut tree[from..]);
}

/// The fault at a stop, by the place of its symbol; the end's is the length of the source.
fn fault_at(source: &[u8], symbols: &[SymbolRecord], stop: Stop) -> Fault
    ensures { result ≡ placed source.now symbols.now stop }
{
    let (kind, at) = match stop {
        Stop::Impossible(at) => (FaultKind::ImpossibleSymbol, at),
        Stop::TooDeep(at) => (FaultKind::EnclosedTooDeep, at),
    };
    let place = symbols
        .get(at)
        .map_or(source.len(), |symbol| symbol.place as usize);
    Fault { kind, place }
}

/// Parses symbols up to their end.
fn whole(source: &[u8], symbols: &[SymbolRecord], tree: &mut [TreeRecord]) -> Result<Cursor, Stop>
    ensures { Descends source.now symbols.now tree.old result tree.new }
{
    let mut descent = Descent::new(source, symbols, tree);
    module(&mut descent)?;
    descent.finish()
}

/// Zeroes both lists, and answers the fault.
fn refused(
    symbols: &mut [SymbolRecord],
    tree: &mut [TreeRecord],
    fault: Fault,
) -> Result<Parsed, Fault>
    ensures answer { result ≡ Err fault }
    ensures symbols { symbols.new ≡ replicate (length symbols.old) zero_record }
    ensures tree { tree.new ≡ replicate (length tree.old) zero_node }
{
    symbols.fill(SymbolRecord::ZERO);
    clear(tree);
    Err(fault)
}

/// Parses a source: fills the first list with its symbols and the second with the records of its syntax tree.
/// A list under 1,024 symbol or 2,048 tree records is refused, both untouched; on any other fault both are zeroed.
pub fn parse(
    source: &[u8],
    symbols: &mut [SymbolRecord],
    tree: &mut [TreeRecord],
) -> Result<Parsed, Fault>
    ensures short { Short symbols.old tree.old → (result ≡ Err (fault ListTooShort 0)) × (symbols.new ≡ symbols.old) × (tree.new ≡ tree.old) }
    ensures answer { symbol_limit ≤ length symbols.old → tree_limit ≤ length tree.old → Answered source.now symbols.old tree.old (lexical source.now) result symbols.new tree.new }
    ensures unique { OneTree }
    ensures one { OneAnswer }
    ensures begins { ExpressionsBegin }
{
    if symbols.len() < MAX_SYMBOLS || tree.len() < MAX_RECORDS {
        return Err(Fault {
            kind: FaultKind::ListTooShort,
            place: 0,
        });
    }
    clear(tree);
    let count = scan(source, symbols)?;
    match whole(source, &symbols[..count], tree) {
        Ok(end) => {
            clear_from(tree, end.used);
            Ok(Parsed {
                root: end.used.saturating_sub(1),
                records: end.used,
            })
        }
        Err(stop) => {
            let fault = fault_at(source, &symbols[..count], stop);
            refused(symbols, tree, fault)
        }
    }
}
