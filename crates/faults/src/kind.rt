use std::error::Error;
use std::fmt;

/// The layer of the compiler that finds a fault.
#[derive(Clone, Copy, PartialEq, Eq, Debug)]
pub enum Layer {
    Symbols,
    Grammar,
    Meaning,
}

/// What is wrong with a source, or with the lists that are lent for it, with the number by which the outside knows it.
#[derive(Clone, Copy, PartialEq, Eq, Debug)]
pub enum FaultKind {
    /// A lent list is too short.
    ListTooShort = 1,
    /// The source has more than 65,535 bytes.
    SourceTooLong = 2,
    /// A byte that begins no symbol.
    StrayByte = 11,
    /// A number that is neither decimal, octal nor hexadecimal.
    MalformedNumber = 12,
    /// A number above the greatest INTEGER.
    NumberTooLarge = 13,
    /// A comment that is not closed.
    OpenComment = 14,
    /// The 1,025th symbol.
    TooManySymbols = 15,
    /// A symbol with which no module can go on.
    ImpossibleSymbol = 21,
    /// The 17th enclosure of a factor or a statement.
    EnclosedTooDeep = 22,
    /// A name that is not declared.
    Undeclared = 31,
    /// A name declared twice in one block, or a standard name declared.
    DeclaredTwice = 32,
    /// A wrong type, or a name of a wrong sort.
    WrongType = 33,
    /// A closing name that differs from the opening one.
    ClosingNameDiffers = 34,
    /// EXIT outside a LOOP, or a RETURN that does not suit its block.
    Misplaced = 35,
    /// A FOR name that is no INTEGER variable of its own block, or is written in its loop.
    ForName = 36,
    /// A wrong number of arguments.
    ArgumentCount = 37,
    /// A falling range, a set element outside 0 to 15, or BY 0.
    BadConstant = 38,
    /// Too many words or parameters.
    TooManyWords = 39,
}

/// A fault: its kind and its place, a byte's distance from the start of the source.
#[derive(Clone, Copy, PartialEq, Eq, Debug)]
pub struct Fault {
    pub kind: FaultKind,
    pub place: usize,
}

impl fmt::Display for Fault {
    ghost use Rattle.std.specs.Prelude.{Some};
    ghost use Rattle.faults.specs.Numbers.{shown};

    ghost output = { λ fault. Some (shown fault) };

    fn fmt<W: fmt::Write>(&self, f: &mut fmt::Formatter<W>) -> fmt::Result {
        write!(f, "refused {} at {}", self.kind.number(), self.place)
    }
}

impl Error for Fault {}
