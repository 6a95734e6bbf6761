// Sets of elements from 0 to 15 in a word: only the low sixteen bits of a word count, and every set answered has no other bit.
ghost use Rattle.std.specs.Prelude.{◌≡◌, false, not, ◌&&◌, ◌||◌, pos, if◌then◌else◌, Some, None, MatchOption, ◌==◌, int_le, unsigned_abs};
ghost use Rattle.integer.specs.Ends.{within};
ghost use Rattle.integer.specs.Sets.{bits, has, Elements, elements, if_element, union_of, difference_of, intersection_of, including, excluding, span, ordered};

// The low sixteen bits of a word.
fn low_bits(word: i32) -> u16
    ensures { result ≡ bits word }
{
    (word & 0xffff) as u16
}

// The place of an element's bit, or none if no set can have it.
fn place(element: i32) -> Option<u32>
    ensures { result ≡ if_element element (unsigned_abs element) }
{
    u32::try_from(element).ok().filter(|i| *i < 16)
}

// Three functions, since each is one expression: one that took the operation as a closure would be longer.
/// The elements of a, of b or of both.
pub fn union(a: i32, b: i32) -> i32
    ensures answer { result ≡ union_of a b }
    ensures members { Elements (λ i. has i a || has i b) result }
{
    (low_bits(a) | low_bits(b)) as i32
}

/// The elements of a that are not in b.
pub fn difference(a: i32, b: i32) -> i32
    ensures answer { result ≡ difference_of a b }
    ensures members { Elements (λ i. has i a && not (has i b)) result }
{
    (low_bits(a) & !low_bits(b)) as i32
}

/// The elements of both a and b.
pub fn intersection(a: i32, b: i32) -> i32
    ensures answer { result ≡ intersection_of a b }
    ensures members { Elements (λ i. has i a && has i b) result }
{
    (low_bits(a) & low_bits(b)) as i32
}

/// Whether the set has the element, or none if no set can have it.
pub fn contains(set: i32, element: i32) -> Option<bool>
    ensures { result ≡ if_element element (has (unsigned_abs element) set) }
{
    let i = place(element)?;
    Some((low_bits(set) >> i) & 1 == 1)
}

/// The set with the element, or none if no set can have it.
pub fn include(set: i32, element: i32) -> Option<i32>
    ensures answer { result ≡ if_element element (including set element) }
    ensures members { MatchOption result (within elements element ≡ false) (Elements (λ i. has i set || i == unsigned_abs element)) }
{
    let i = place(element)?;
    Some((low_bits(set) | 1 << i) as i32)
}

/// The set without the element, or none if no set can have it.
pub fn exclude(set: i32, element: i32) -> Option<i32>
    ensures answer { result ≡ if_element element (excluding set element) }
    ensures members { MatchOption result (within elements element ≡ false) (Elements (λ i. has i set && not (i == unsigned_abs element))) }
{
    let i = place(element)?;
    Some((low_bits(set) & !(1 << i)) as i32)
}

/// The elements from low to high, or none if no set can have one of the two, or if low is above high.
pub fn range(low: i32, high: i32) -> Option<i32>
    ensures answer { result ≡ (if ordered low high then Some (span low high) else None) }
    ensures members { MatchOption result (ordered low high ≡ false) (Elements (λ i. int_le low (pos i) && int_le (pos i) high)) }
{
    let first = place(low)?;
    let last = place(high)?;
    if last < first {
        return None;
    }
    Some(((2u32 << last) - (1 << first)) as i32)
}
