// Bands of numbers: what lies outside is moved to the nearest end.
ghost use Rattle.std.specs.Prelude.{◌≡◌, ◌≤ℤ◌};
ghost use Rattle.integer.specs.Bands.{band, Nearest};
ghost use Rattle.integer.specs.Ends.{integer, held, clamped};

use crate::{HIGHEST, LOWEST};

/// The INTEGER that is nearest to x.
pub fn saturate(x: i64) -> i32
    ensures answer { result ≡ held integer x }
    ensures nearest { Nearest integer x result }
{
    x.clamp(LOWEST as i64, HIGHEST as i64) as i32
}

/// The number from low to high that is nearest to x: low where x is at most low, else high where x is at least high, else x.
pub fn clamp(x: i32, low: i32, high: i32) -> i32
    ensures answer { result ≡ clamped low high x }
    ensures nearest { low ≤ℤ high → Nearest (band low high) x result }
{
    if x <= low { low } else { x.min(high) }
}
