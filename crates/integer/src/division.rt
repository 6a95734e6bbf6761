// Division of INTEGERs: quotient and remainder as one pair.
ghost use Rattle.std.specs.Prelude.{◌≡◌, ℤ, pos, ◌≤ℤ◌, ◌<ℤ◌, Some, MatchOption};
ghost use Rattle.std.specs.Int.{int_div_euclid};
ghost use Rattle.integer.specs.Division.{divided, Divides};

/// Quotient and remainder of x by y, the quotient rounded down, or none if y is below 1.
pub fn divide(x: i32, y: i32) -> Option<(i32, i32)>
    ensures answer { result ≡ divided x y }
    ensures law { MatchOption result (y <ℤ pos 1) (Divides x y) }
    ensures unique { (p : ℤ × ℤ) → Divides x y p → result ≡ Some p }
{
    if y < 1 {
        return None;
    }
    Some((x.div_euclid(y), x.rem_euclid(y)))
}
