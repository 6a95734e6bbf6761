ghost use Rattle.std.specs.Prelude.{◌≡◌, ◌⊎◌, IfOk, slice_get};
ghost use Rattle.std.specs.Char.{is_not_whitespace};
ghost use Rattle.std.specs.Str.Iter.{NoAsciiPasses};

use crate::command::Command;
use std::alloc::{AllocError, Global};
use std::io;
use std::io::BufRead;
use std::str::from_utf8;

/// What a line of a script can ask.
pub trait Line: Copy {
    /// What the words of a line ask, or none where they ask nothing that there is.
    fn from_words(words: &[&str]) -> Option<Self>;

    /// The command for a port that it is, or none.
    fn command(self) -> Option<Command>;
}

/// What a line asks: nothing where it is blank or begins with `#`; else what its words ask, or none where that is nothing that there is.
pub fn read_line<L: Line>(heap: Global, line: &str) -> Result<Option<Option<L>>, AllocError>
    ensures comment { IfOk result (λ asked. slice_get line.now 0 ≡ Some 35 → asked ≡ None) }
    ensures nothing { IfOk result (λ asked. asked ≡ None → (slice_get line.now 0 ≡ Some 35) ⊎ NoAsciiPasses is_not_whitespace line.now) }
{
    if line.starts_with('#') {
        return Ok(None);
    }
    let words: Vec<&str> = line.split_whitespace().collect(heap)?;
    if words.is_empty() {
        return Ok(None);
    }
    Ok(Some(L::from_words(&words)))
}

/// Reads what the lines of a script ask, with none for a line that asks nothing that there is, as one that is no text.
/// A line that is blank or begins with `#` is passed over.
pub fn read_script<R: BufRead + Drop, L: Line>(
    heap: Global,
    source: R,
) -> io::Result<Vec<Option<L>>> {
    let mut script = Vec::new(heap);
    for line in source.split(heap, b'\n') {
        let line = line?;
        // A comment may be bytes that are no text.
        if line.starts_with(b"#") {
            continue;
        }
        match from_utf8(&line) {
            Ok(text) => {
                if let Some(asked) = read_line(heap, text)? {
                    script.push(asked)?;
                }
            }
            Err(_) => script.push(None)?,
        }
    }
    Ok(script)
}
