ghost use Rattle.std.specs.Prelude.{◌≡◌, ◌≤◌, length, take, drop, Some, None, Ok, Err, MatchResult};
ghost use Rattle.lexer.specs.Scan.{seen, byte_limit, tag_of, text_of, is_end};
ghost use Rattle.lexer.specs.Records.{records_of, scanning, kept};
ghost use Rattle.lexer.specs.Reading.{Lawful};
ghost use Rattle.lexer.specs.Refusals.{LawfulRefusal};

use crate::next::next_symbol;
use crate::symbol::{Lexeme, Symbol, SymbolRecord};
use faults::{Fault, FaultKind};
use vocabulary::Tag;

/// The most symbols that a source may have, the end of the source not counted.
pub const MAX_SYMBOLS: usize = 1024;

/// The most bytes that a source may have.
pub const MAX_BYTES: usize = 65535;

impl SymbolRecord {
    /// The record that keeps nothing.
    pub const ZERO: SymbolRecord = SymbolRecord {
        tag: Tag::EndOfSource,
        place: 0,
    };
}

/// What is kept of a symbol; nothing of the end.
fn record_of(lexeme: Lexeme) -> Option<SymbolRecord>
    requires { lexeme.place ≤ byte_limit }
    ensures { result ≡ kept (is_end lexeme.entry.symbol) (seen lexeme.entry) }
{
    let place = lexeme.place as u16;
    match lexeme.symbol {
        Symbol::End => None,
        symbol => Some(SymbolRecord {
            tag: symbol.tag(),
            place,
        }),
    }
}

/// Writes the symbols of a source into the list, one to a slot, and answers how many; a fault leaves some of them written.
fn fill(source: &[u8], slots: &mut [SymbolRecord]) -> Result<usize, Fault>
    ensures { MatchResult result (λ n. (n ≤ length slots.new) × (records_of (length slots.old) source.now ≡ Ok (take n slots.new)) × (drop n slots.new ≡ drop n slots.old)) (λ e. records_of (length slots.old) source.now ≡ Err e) }
{
    if source.len() > MAX_BYTES {
        return Err(Fault {
            kind: FaultKind::SourceTooLong,
            place: MAX_BYTES,
        });
    }
    let mut at = 0;
    for (count, slot) in slots.iter_mut().enumerate() {
        let lexeme = next_symbol(source, at)?;
        let Some(record) = record_of(lexeme) else {
            return Ok(count);
        };
        *slot = record;
        at = lexeme.end;
    }
    let surplus = next_symbol(source, at)?;
    match surplus.symbol {
        Symbol::End => Ok(slots.len()),
        _ => Err(Fault {
            kind: FaultKind::TooManySymbols,
            place: surplus.place,
        }),
    }
}

/// Fills the list with the symbols of a source and answers how many there are; the rest of the list stays.
/// A list under 1,024 records is refused untouched; on any other fault the whole list is zeroed.
#[tactic(auto, using(crate::proofs::Readings::lawful, crate::proofs::Refusals::lawful_refusal))]
pub fn scan(source: &[u8], records: &mut [SymbolRecord]) -> Result<usize, Fault>
    ensures answer { (result, records.new) ≡ scanning source.now records.old }
    ensures law { Lawful source.now }
    ensures refusal { LawfulRefusal source.now }
{
    if records.len() < MAX_SYMBOLS {
        return Err(Fault {
            kind: FaultKind::ListTooShort,
            place: 0,
        });
    }
    let filled = fill(source, &mut records[..MAX_SYMBOLS]);
    if filled.is_err() {
        records.fill(SymbolRecord::ZERO);
    }
    filled
}
