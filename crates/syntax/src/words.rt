ghost use Rattle.std.specs.Prelude.{◌≡◌, ◌+◌, ◌≤◌, length};
ghost use Rattle.syntax.specs.Symbols.{word_length, number_at};

use vocabulary::{number_value, run};

// By place: a record keeps the place of its symbol, and no text.
/// How long the word or number at a place is.
pub fn word_length(source: &[u8], place: usize) -> usize
    ensures is { result ≡ word_length source.now place }
    ensures within { place ≤ length source.now → place + result ≤ length source.now }
{
    source.get(place..).map_or(0, |rest| run(rest))
}

/// The value of the number at a place.
pub fn number_at(source: &[u8], place: usize) -> usize
    ensures { result ≡ number_at source.now place }
{
    match source.get(place..) {
        Some(rest) => number_value(&rest[..run(rest)]).unwrap_or(0) as usize,
        None => 0,
    }
}
