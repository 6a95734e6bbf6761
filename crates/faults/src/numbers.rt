ghost use Rattle.std.specs.Prelude.{◌≡◌};
ghost use Rattle.faults.specs.Numbers.{layer_of, number_of};

use crate::kind::{FaultKind, Layer};

impl FaultKind {
    /// The layer that finds faults of this kind.
    pub fn layer(self) -> Layer
        ensures { result ≡ layer_of self }
    {
        match self {
            FaultKind::ListTooShort
            | FaultKind::SourceTooLong
            | FaultKind::StrayByte
            | FaultKind::MalformedNumber
            | FaultKind::NumberTooLarge
            | FaultKind::OpenComment
            | FaultKind::TooManySymbols => Layer::Symbols,
            FaultKind::ImpossibleSymbol | FaultKind::EnclosedTooDeep => Layer::Grammar,
            _ => Layer::Meaning,
        }
    }

    /// The number by which the outside knows this kind.
    pub fn number(self) -> u8
        ensures { result ≡ number_of self }
    {
        self as u8
    }
}
