ghost use Rattle.std.specs.Prelude.{◌≡◌};
ghost use Rattle.instructions.specs.Numbers.{number_of, operation_of, asks};

use crate::answers::PortCall;

/// What an instruction does. docs/CODE.md has each operation's effect.
#[derive(Clone, Copy, PartialEq, Eq, Debug)]
pub enum Operation {
    /// Ends the reading.
    End,
    /// Leaves an INTEGER constant.
    Integer,
    /// Leaves a set constant.
    Set,
    /// Leaves a global word.
    Global,
    /// Stores a global word.
    StoreGlobal,
    /// Leaves a variable of this activation.
    Local,
    /// Stores a variable of this activation.
    StoreLocal,
    /// Checks an index against its bounds.
    Index,
    /// Leaves an element of the global words.
    GlobalElement,
    /// Stores an element of the global words.
    StoreGlobalElement,
    /// Leaves an element of this activation's variables.
    LocalElement,
    /// Stores an element of this activation's variables.
    StoreLocalElement,
    /// Leaves a copy of a word further down.
    Copy,
    /// Exchanges the two newest words.
    Swap,
    /// X + y.
    Add,
    /// X - y.
    Subtract,
    /// X * y.
    Multiply,
    /// The quotient of x by y.
    Divide,
    /// The remainder of x by y.
    Modulo,
    /// -x.
    Negate,
    /// The absolute value of x.
    Absolute,
    /// Whether x is odd.
    Odd,
    /// X = y.
    Equal,
    /// X # y.
    Unequal,
    /// X < y.
    Less,
    /// X <= y.
    LessEqual,
    /// X > y.
    Greater,
    /// X >= y.
    GreaterEqual,
    /// NOT x.
    Not,
    /// The elements of either set.
    Union,
    /// The elements of the first set that are not in the second.
    Difference,
    /// The elements of both sets.
    Intersection,
    /// Checks a set element.
    Element,
    /// Whether a set has an element.
    In,
    /// A set with an element.
    Include,
    /// A set without an element.
    Exclude,
    /// Goes to an instruction.
    Jump,
    /// Goes to an instruction if the word is not 0.
    JumpIf,
    /// Goes to an instruction if the word is 0.
    JumpUnless,
    /// The next term of a FOR.
    Advance,
    /// Checks a channel.
    Channel,
    /// Takes a sample from a channel.
    Take,
    /// Sets a channel.
    Put,
    /// Opens an activation.
    Call,
    /// Makes variables.
    Enter,
    /// Closes an activation.
    Return,
    /// Closes an activation, with a result.
    ReturnValue,
    /// A function has reached its end.
    NoResult,
    /// A number that the table does not have.
    Other(u8),
}

/// The operations, each at its number.
pub const TABLE: [Operation; 48] = [
    Operation::End,
    Operation::Integer,
    Operation::Set,
    Operation::Global,
    Operation::StoreGlobal,
    Operation::Local,
    Operation::StoreLocal,
    Operation::Index,
    Operation::GlobalElement,
    Operation::StoreGlobalElement,
    Operation::LocalElement,
    Operation::StoreLocalElement,
    Operation::Copy,
    Operation::Swap,
    Operation::Add,
    Operation::Subtract,
    Operation::Multiply,
    Operation::Divide,
    Operation::Modulo,
    Operation::Negate,
    Operation::Absolute,
    Operation::Odd,
    Operation::Equal,
    Operation::Unequal,
    Operation::Less,
    Operation::LessEqual,
    Operation::Greater,
    Operation::GreaterEqual,
    Operation::Not,
    Operation::Union,
    Operation::Difference,
    Operation::Intersection,
    Operation::Element,
    Operation::In,
    Operation::Include,
    Operation::Exclude,
    Operation::Jump,
    Operation::JumpIf,
    Operation::JumpUnless,
    Operation::Advance,
    Operation::Channel,
    Operation::Take,
    Operation::Put,
    Operation::Call,
    Operation::Enter,
    Operation::Return,
    Operation::ReturnValue,
    Operation::NoResult,
];

impl Operation {
    /// What the operation calls of the port, if anything.
    pub fn port_call(self) -> Option<PortCall>
        ensures { result ≡ asks self }
    {
        match self {
            Operation::Take => Some(PortCall::Take),
            Operation::Put => Some(PortCall::Set),
            _ => None,
        }
    }
}

impl From<Operation> for u8 {
    ghost from_gives = { λ operation number. number ≡ number_of operation };

    fn from(operation: Operation) -> u8
        ensures { result ≡ number_of operation }
    {
        match operation {
            Operation::End => 0,
            Operation::Integer => 1,
            Operation::Set => 2,
            Operation::Global => 3,
            Operation::StoreGlobal => 4,
            Operation::Local => 5,
            Operation::StoreLocal => 6,
            Operation::Index => 7,
            Operation::GlobalElement => 8,
            Operation::StoreGlobalElement => 9,
            Operation::LocalElement => 10,
            Operation::StoreLocalElement => 11,
            Operation::Copy => 12,
            Operation::Swap => 13,
            Operation::Add => 14,
            Operation::Subtract => 15,
            Operation::Multiply => 16,
            Operation::Divide => 17,
            Operation::Modulo => 18,
            Operation::Negate => 19,
            Operation::Absolute => 20,
            Operation::Odd => 21,
            Operation::Equal => 22,
            Operation::Unequal => 23,
            Operation::Less => 24,
            Operation::LessEqual => 25,
            Operation::Greater => 26,
            Operation::GreaterEqual => 27,
            Operation::Not => 28,
            Operation::Union => 29,
            Operation::Difference => 30,
            Operation::Intersection => 31,
            Operation::Element => 32,
            Operation::In => 33,
            Operation::Include => 34,
            Operation::Exclude => 35,
            Operation::Jump => 36,
            Operation::JumpIf => 37,
            Operation::JumpUnless => 38,
            Operation::Advance => 39,
            Operation::Channel => 40,
            Operation::Take => 41,
            Operation::Put => 42,
            Operation::Call => 43,
            Operation::Enter => 44,
            Operation::Return => 45,
            Operation::ReturnValue => 46,
            Operation::NoResult => 47,
            Operation::Other(number) => number,
        }
    }
}

impl From<u8> for Operation {
    ghost from_gives = { λ number operation. operation ≡ operation_of number };

    fn from(number: u8) -> Operation
        ensures { result ≡ operation_of number }
    {
        match TABLE.get(number as usize) {
            Some(operation) => *operation,
            None => Operation::Other(number),
        }
    }
}
