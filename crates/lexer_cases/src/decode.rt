ghost use Rattle.std.specs.Prelude.{◌≤◌, ◌<◌, length, IfSome};

use std::alloc::{AllocError, Global};
use vocabulary::digit_value;

// A byte, how often it comes, and what stands behind it.
#[derive(Clone, Copy)]
struct Escape<'a> {
    byte: u8,
    copies: usize,
    behind: &'a [u8],
}

// What a decimal or hexadecimal digit stands for, 0 for any other byte.
fn digit(c: u8) -> u8
    ensures { result ≤ 15 }
{
    (digit_value(c) % 16) as u8
}

// A count of decimal digits.
fn count(digits: &[u8]) -> usize {
    digits.iter().fold(0, |n: usize, c| {
        n.wrapping_mul(10).wrapping_add(digit(*c) as usize)
    })
}

// What the bytes begin with; none at their end.
fn first_escape(bytes: &[u8]) -> Option<Escape<'_>>
    ensures { IfSome result (λ escape. length escape.behind.now < length bytes.now) }
{
    let (byte, copies, behind) = match bytes {
        [] => return None,
        [b'\\', b't', behind @ ..] => (b'\t', 1, behind),
        [b'\\', b'r', behind @ ..] => (b'\r', 1, behind),
        [b'\\', b'n', behind @ ..] => (b'\n', 1, behind),
        [b'\\', b'x', high, low, behind @ ..] => (digit(*high) * 16 + digit(*low), 1, behind),
        [b'\\', b'#', counted @ ..] if counted.len() > 5 => {
            (counted[5], count(&counted[..5]), &counted[6..])
        }
        [b'\\', byte, behind @ ..] | [byte, behind @ ..] => (*byte, 1, behind),
    };
    Some(Escape {
        byte,
        copies,
        behind,
    })
}

// The bytes that a line of the table stands for.
pub fn decode(heap: Global, line: &[u8]) -> Result<Vec<u8>, AllocError> {
    let mut bytes = Vec::new(heap);
    let mut rest = line;
    while let Some(escape) = first_escape(rest) {
        // Nearly every byte stands for itself, and a push takes half the time of a resize by one.
        if escape.copies == 1 {
            bytes.push(escape.byte)?;
        } else {
            bytes.resize(bytes.len().saturating_add(escape.copies), escape.byte)?;
        }
        rest = escape.behind;
    }
    Ok(bytes)
}
