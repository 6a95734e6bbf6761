ghost use Rattle.std.specs.Prelude.{◌≡◌, ◌≤◌, length};
ghost use Rattle.vocabulary.specs.Characters.{letter, digit, alphanumeric, run};

/// An ASCII letter.
pub fn is_letter(c: u8) -> bool
    ensures { result ≡ letter c }
{
    c.is_ascii_alphabetic()
}

/// A decimal digit.
pub fn is_digit(c: u8) -> bool
    ensures { result ≡ digit c }
{
    c.is_ascii_digit()
}

/// A byte that goes on with a word or a number.
pub fn is_alphanumeric(c: u8) -> bool
    ensures { result ≡ alphanumeric c }
{
    c.is_ascii_alphanumeric()
}

/// How many letters and digits the bytes begin with.
pub fn run(rest: &[u8]) -> usize
    ensures is { result ≡ run rest.now }
    ensures within { result ≤ length rest.now }
{
    rest.iter().take_while(|c| is_alphanumeric(**c)).count()
}
