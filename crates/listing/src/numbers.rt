ghost use Rattle.std.specs.Prelude.{◌≡◌};
ghost use Rattle.listing.specs.Lines.{number};

use vocabulary::digits_value;

/// The number from 0 to 65,535 that a word writes in decimal digits.
pub fn number(word: &[u8]) -> Option<u16>
    ensures { result ≡ number word.now }
{
    if word.is_empty() {
        return None;
    }
    u16::try_from(digits_value(word, 10)?).ok()
}
