ghost use Rattle.std.specs.Prelude.{◌≡◌, min};
ghost use Rattle.std.specs.Option.{option_map};
ghost use Rattle.vocabulary.specs.Numbers.{digit_value, digits_value, ceiling, base_by, number_value, judged};

use crate::characters::is_digit;
use faults::FaultKind;

/// What a digit stands for, A to F included; 16 for any other byte.
pub fn digit_value(c: u8) -> u32
    ensures { result ≡ digit_value c }
{
    // Not to_digit, which takes small letters too.
    match c {
        b'0'..=b'9' => (c - b'0') as u32,
        b'A'..=b'F' => (c - b'A') as u32 + 10,
        _ => 16,
    }
}

/// The value of digits in a base, held at the greatest u32; none where one is no digit of the base.
pub fn digits_value(digits: &[u8], base: u32) -> Option<u32>
    ensures { result ≡ option_map (λ n. min n ceiling) (digits_value base 0 digits.now) }
{
    let mut total: u32 = 0;
    for c in digits {
        let digit = digit_value(*c);
        if digit >= base {
            return None;
        }
        total = total.saturating_mul(base).saturating_add(digit);
    }
    Some(total)
}

/// The base that a number's last byte names.
fn base_by(last: u8) -> u32
    ensures { result ≡ base_by last }
{
    match last {
        b'B' => 8,
        b'H' => 16,
        _ => 10,
    }
}

/// The value of a number's text, which is an INTEGER, or what is wrong with it.
pub fn number_value(text: &[u8]) -> Result<i32, FaultKind>
    ensures { result ≡ judged (number_value text.now) }
{
    let (last, front) = text.split_last().ok_or(FaultKind::MalformedNumber)?;
    if !is_digit(text[0]) {
        return Err(FaultKind::MalformedNumber);
    }
    let base = base_by(*last);
    let digits = if base == 10 { text } else { front };
    let value = digits_value(digits, base).ok_or(FaultKind::MalformedNumber)?;
    i16::try_from(value)
        .map(i32::from)
        .map_err(|_| FaultKind::NumberTooLarge)
}
