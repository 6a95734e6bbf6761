ghost use Rattle.std.specs.Prelude.{◌≡◌, ◌≤◌, ◌==◌, false, length, take, IfOk, Ok, Err, MatchResult};
ghost use Rattle.vocabulary.specs.Tags.{word_tag};
ghost use Rattle.lexer.specs.Leads.{lead_of, width};
ghost use Rattle.lexer.specs.Scan.{place_from, front_of, symbol_from, seen, end_of, tag_of, text_of, is_end, ends};

use crate::symbol::{Lead, Lexeme, Symbol};
use faults::{Fault, FaultKind};
use vocabulary::{Tag, is_digit, is_letter, number_value, run, sign, word_tag};

/// What the bytes begin with, inside of a comment or outside.
fn lead(rest: &[u8], inside: bool) -> Lead
    ensures is { result ≡ lead_of inside rest.now }
    ensures room { width result ≤ length rest.now }
{
    match rest {
        [] => Lead::Done,
        [b'(', b'*', ..] => if inside { Lead::Nest } else { Lead::Open },
        [b'*', b')', ..] if inside => Lead::Close,
        [b' ' | b'\t' | b'\n' | b'\r', ..] => Lead::Pass,
        _ => if inside { Lead::Pass } else { Lead::Stop },
    }
}

/// The place of the first symbol at `from` or behind it: what lies before is separators and comments.
fn skip(source: &[u8], from: usize) -> Result<usize, Fault>
    ensures is { result ≡ place_from source.now from }
    ensures within { IfOk result (λ at. at ≤ length source.now) }
{
    let mut at = from.min(source.len());
    let mut depth: usize = 0;
    let mut opened: usize = 0;
    // By place, and no rest of the source: where a comment opens, and where the symbol stands, are what is answered.
    'turns: loop {
        match lead(&source[at..], depth > 0) {
            Lead::Done => {
                return if depth == 0 {
                    Ok(at)
                } else {
                    Err(Fault {
                        kind: FaultKind::OpenComment,
                        place: opened,
                    })
                };
            }
            Lead::Stop => return Ok(at),
            Lead::Open => {
                opened = at;
                depth = 1;
                at += 2;
            }
            Lead::Nest => {
                depth += 1;
                at += 2;
            }
            Lead::Close => {
                depth -= 1;
                at += 2;
            }
            Lead::Pass => at += 1,
        }
    }
}

/// The symbol that a word is.
fn word(text: &[u8]) -> Symbol<'_>
    ensures tag { tag_of result ≡ word_tag text.now }
    ensures text { text_of result ≡ text.now }
    ensures goes { is_end result ≡ false }
{
    match word_tag(text) {
        Tag::Identifier => Symbol::Identifier(text),
        tag => Symbol::Reserved(tag, text),
    }
}

/// The symbol that the bytes begin with, where no separator and no comment stands in front.
fn front(rest: &[u8]) -> Result<Symbol<'_>, FaultKind>
    ensures is { MatchResult result (λ s. front_of rest.now ≡ Ok (tag_of s, length (text_of s))) (λ kind. front_of rest.now ≡ Err kind) }
    ensures text { IfOk result (λ s. text_of s ≡ take (length (text_of s)) rest.now) }
    ensures ends { IfOk result (λ s. is_end s ≡ (length (text_of s) == 0)) }
{
    match rest {
        [] => Ok(Symbol::End),
        [first, ..] if is_letter(*first) => Ok(word(&rest[..run(rest)])),
        [first, ..] if is_digit(*first) => {
            let text = &rest[..run(rest)];
            number_value(text)?;
            Ok(Symbol::Number(text))
        }
        _ => {
            let (tag, width) = sign(rest).ok_or(FaultKind::StrayByte)?;
            Ok(Symbol::Sign(tag, &rest[..width]))
        }
    }
}

/// The first symbol at the place `from` or behind it; past the end, the end symbol.
pub fn next_symbol<'a>(source: &'a [u8], from: usize) -> Result<Lexeme<'a>, Fault>
    ensures is { MatchResult result (λ l. symbol_from source.now from ≡ Ok (seen l)) (λ e. symbol_from source.now from ≡ Err e) }
    ensures end { IfOk result (λ l. l.end ≡ end_of (seen l)) }
    ensures ends { IfOk result (λ l. is_end l.symbol ≡ ends (seen l)) }
    ensures within { IfOk result (λ l. l.end ≤ length source.now) }
{
    let place = skip(source, from)?;
    let symbol = front(&source[place..]).map_err(|kind| Fault { kind, place })?;
    let end = place + symbol.text().len();
    Ok(Lexeme { symbol, place, end })
}
