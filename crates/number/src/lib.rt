//! Numbers in the words of a script, checked against bounds or as a type takes them.
#![tactic(auto)]

#[cfg(test)]
mod tests;

ghost use Rattle.std.specs.Prelude.{pos};
ghost use Rattle.integer.specs.Ends.{integer};
ghost use Rattle.number.specs.Numbers.{Number, Reads, whole};

use ports::sample::Sample;

/// The number that a word writes in decimal, if it lies from `low` to `high`. A sign may come first.
pub fn number(word: &str, low: i64, high: i64) -> Option<i64>
    ensures { Number low high word.now result }
{
    let z = word.parse::<i64>().ok()?;
    if low <= z && z <= high { Some(z) } else { None }
}

/// The number that a word writes in decimal, if 64 bits and the type hold it. A sign may come first, also before an unsigned number.
pub fn read<T: TryFrom<i64>>(word: &str) -> Option<T>
where
    T::Error: Drop,
    ensures { Reads T.try_from_gives word.now result }
{
    let z = number(word, i64::MIN, i64::MAX)?;
    T::try_from(z).ok()
}

/// A sample.
pub fn sample(word: &str) -> Option<Sample>
    ensures { Number integer.low integer.high word.now result }
{
    read::<Sample>(word)
}

/// A channel's number, be there such a channel or not: from 0 to 255.
pub fn channel(word: &str) -> Option<u8>
    ensures { Number (pos 0) (pos 255) word.now (whole result) }
{
    read::<u8>(word)
}

/// A number of samples: from 0 to 4,294,967,295.
pub fn size(word: &str) -> Option<u32>
    ensures { Number (pos 0) (pos 4294967295) word.now (whole result) }
{
    read::<u32>(word)
}
