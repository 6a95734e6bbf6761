ghost use Rattle.std.specs.Prelude.{◌≡◌, ◌≤◌, length, IfOk, string_bytes};
ghost use Rattle.listing.specs.Lines.{blank, first_word, behind, number, unlisted, operation, reading, written, ReadsBack};

use crate::numbers::number;
use instructions::instruction::Instruction;
use instructions::operation::Operation;
use names::{by_name, name};
use std::alloc::{AllocError, Global};

// The index of the first blank, or the length where there is none.
fn blank(line: &[u8]) -> usize
    ensures place { result ≡ blank line.now }
    ensures within { result ≤ length line.now }
{
    line.iter().position(|c| *c == b' ').unwrap_or(line.len())
}

// What stands before the first blank, and what stands behind it.
fn split(line: &[u8]) -> (&[u8], &[u8])
    ensures word { result.0.now ≡ first_word line.now }
    ensures rest { result.1.now ≡ behind line.now }
{
    let blank = blank(line);
    (&line[..blank], line.get(blank + 1..).unwrap_or(&[]))
}

// The operation of the number that a word writes, if the table does not have it.
fn unlisted(word: &[u8]) -> Option<Operation>
    ensures { result ≡ unlisted (number word.now) }
{
    let n = u8::try_from(number(word)?).ok()?;
    (n >= 48).then_some(Operation::Other(n))
}

// The operation that a word names, by its name or, where the table does not have it, by its number.
fn operation(word: &[u8]) -> Option<Operation>
    ensures { result ≡ operation word.now }
{
    by_name(word).or_else(|| unlisted(word))
}

/// The index and the instruction that a line writes, or none where it is malformed.
pub fn read_line(line: &[u8]) -> Option<(u16, Instruction)>
    ensures { result ≡ reading line.now }
{
    let (index, rest) = split(line);
    let index = number(index)?;
    let (name, rest) = split(rest);
    let operation = operation(name)?;
    let (operand, place) = split(rest);
    let operand = number(operand)?;
    let place = number(place)?;
    let instruction = Instruction {
        operation,
        operand,
        place,
    };
    Some((index, instruction))
}

/// The line that writes an instruction at an index.
pub fn write_line(heap: Global, index: u16, i: Instruction) -> Result<String, AllocError>
    ensures { IfOk result (λ s. string_bytes s ≡ written index i) }
{
    let operand = i.operand;
    let place = i.place;
    // A Display of operations would hold this match and no more, and nothing else would use it.
    match i.operation {
        Operation::Other(n) => format!(in heap; "{index} {n} {operand} {place}"),
        operation => format!(in heap; "{index} {} {operand} {place}", name(operation)),
    }
}

/// Does nothing: its contract states that reading what was written gives the instruction back.
pub fn lines_read_back()
    ensures { ReadsBack }
{}
