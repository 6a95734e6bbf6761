ghost use Rattle.std.specs.Prelude.{◌≡◌, ◌≤◌, length, IfSome};
ghost use Rattle.vocabulary.specs.Signs.{single, sign_of};

use crate::tag::Tag;

/// The tag of the sign that one byte is.
fn single_sign(first: u8) -> Option<Tag>
    ensures { result ≡ single first }
{
    match first {
        b'+' => Some(Tag::Plus),
        b'-' => Some(Tag::Minus),
        b'*' => Some(Tag::Times),
        b'&' => Some(Tag::And),
        b'~' => Some(Tag::Not),
        b'=' => Some(Tag::Equal),
        b'#' => Some(Tag::NotEqual),
        b'<' => Some(Tag::Less),
        b'>' => Some(Tag::Greater),
        b'.' => Some(Tag::Period),
        b',' => Some(Tag::Comma),
        b';' => Some(Tag::Semicolon),
        b':' => Some(Tag::Colon),
        b'(' => Some(Tag::OpenRound),
        b')' => Some(Tag::CloseRound),
        b'[' => Some(Tag::OpenSquare),
        b']' => Some(Tag::CloseSquare),
        b'{' => Some(Tag::OpenCurly),
        b'}' => Some(Tag::CloseCurly),
        _ => None,
    }
}

/// The longest sign that the bytes begin with: its tag and its length.
pub fn sign(rest: &[u8]) -> Option<(Tag, usize)>
    ensures is { result ≡ sign_of rest.now }
    ensures room { IfSome result (λ p. (1 ≤ p.1) × (p.1 ≤ length rest.now)) }
{
    match rest {
        [b'<', b'>', ..] => Some((Tag::NotEqual, 2)),
        [b'<', b'=', ..] => Some((Tag::AtMost, 2)),
        [b'>', b'=', ..] => Some((Tag::AtLeast, 2)),
        [b':', b'=', ..] => Some((Tag::Becomes, 2)),
        [b'.', b'.', ..] => Some((Tag::Range, 2)),
        [first, ..] => Some((single_sign(*first)?, 1)),
        [] => None,
    }
}
