// Arithmetic with a range check: each result is calculated in 64 bits, and answered if it is an INTEGER.
ghost use Rattle.std.specs.Prelude.{◌≡◌, pos, ◌+ℤ◌, ◌-ℤ◌, ◌*ℤ◌, neg_ℤ, unsigned_abs};
ghost use Rattle.integer.specs.Ends.{integer, kept};

// z, or none if it is no INTEGER.
fn fit(z: i64) -> Option<i32>
    ensures { result ≡ kept integer z }
{
    i16::try_from(z).ok().map(i32::from)
}

/// x + y, or none if that is no INTEGER.
pub fn add(x: i32, y: i32) -> Option<i32>
    ensures { result ≡ kept integer (x +ℤ y) }
{
    fit(x as i64 + y as i64)
}

/// x - y, or none if that is no INTEGER.
pub fn subtract(x: i32, y: i32) -> Option<i32>
    ensures { result ≡ kept integer (x -ℤ y) }
{
    fit(x as i64 - y as i64)
}

/// x * y, or none if that is no INTEGER.
pub fn multiply(x: i32, y: i32) -> Option<i32>
    ensures { result ≡ kept integer (x *ℤ y) }
{
    fit(x as i64 * y as i64)
}

/// -x, or none if that is no INTEGER.
pub fn negate(x: i32) -> Option<i32>
    ensures { result ≡ kept integer (neg_ℤ x) }
{
    fit(-(x as i64))
}

/// The absolute value of x, or none if that is no INTEGER.
pub fn absolute(x: i32) -> Option<i32>
    ensures { result ≡ kept integer (pos (unsigned_abs x)) }
{
    fit((x as i64).abs())
}
