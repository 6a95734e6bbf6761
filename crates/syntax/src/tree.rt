ghost use Rattle.std.specs.Prelude.{◌≡◌};
ghost use Rattle.vocabulary.specs.declared.tag.Tag.TheVariants.{EndOfSource};
ghost use Rattle.syntax.specs.Syntax.{label, entry, parts};

use vocabulary::Tag;

/// What a record of the syntax tree stands for.
#[derive(Clone, Copy, Debug)]
pub enum NodeKind {
    /// Nothing: an absent part, the start of a list, and the kind of a zeroed record.
    Empty,
    /// One more item of a list: the list before it, and the item.
    Link,
    /// A number, with its value.
    Number,
    /// A negative constant at its sign, with the number's value.
    Negative,
    /// A name, with its length.
    Name,
    /// A range of set elements: the first and the last.
    Range,
    /// A set at its `{`: the list of its elements and ranges.
    Set,
    /// An element of an array at the array's name, with the name's length: its index.
    Element,
    /// An index at its `[`: the expression.
    Index,
    /// A call at the name, with its length: the list of arguments.
    Call,
    /// An expression in parentheses, at its `(`.
    Group,
    /// A sign or NOT, as the operator says: the operand.
    Unary,
    /// Any operator between two operands.
    Binary,
    /// One statement behind others.
    Sequence,
    /// An assignment at its `:=`: the variable or element, and the value.
    Assign,
    /// EXIT.
    Exit,
    /// IF, with the place of its END: the list of its arms, and what stands behind ELSE.
    If,
    /// An arm at its IF or ELSIF: the condition and the statements.
    Arm,
    /// WHILE, with the place of its END: the condition and the statements.
    While,
    /// REPEAT: the statements and the condition.
    Repeat,
    /// LOOP, with the place of its END: the statements.
    Loop,
    /// RETURN: the value, or nothing.
    Return,
    /// FOR, with the place of its END: its control and the statements.
    For,
    /// The name that a FOR counts with, and its length: its terms.
    Control,
    /// The terms of a FOR: its limits, and the step or nothing.
    Terms,
    /// The limits of a FOR: the first and the last.
    Limits,
    /// A body at its END: its statements, or nothing.
    Body,
    /// A closing name, with its length: the body that it closes.
    Closing,
    /// The start of the list that CONST begins.
    Constants,
    /// A declared constant, with its name's length: the value.
    Constant,
    /// The start of the list that VAR begins.
    Variables,
    /// Declared variables: the list of their names, and the type.
    Variable,
    /// An array type at its ARRAY: its bounds, and the elements' type.
    Array,
    /// The bounds of an array at their `[`: the first and the last.
    Bounds,
    /// A group of parameters: the list of their names, and the type.
    Parameters,
    /// The heading of a procedure: the list of its parameters, and the result's type or nothing.
    Heading,
    /// A procedure at its name, with the name's length: the heading and the block.
    Procedure,
    /// A block: the list of its declarations, and the closed body.
    Block,
    /// A module at its name, with the name's length: the list of its declarations, and the closed body.
    Module,
}

impl NodeKind {
    /// How many parts a node of this kind has.
    pub fn parts(self) -> u8
        ensures { result ≡ parts self }
    {
        match self {
            NodeKind::Empty
            | NodeKind::Number
            | NodeKind::Negative
            | NodeKind::Name
            | NodeKind::Exit
            | NodeKind::Constants
            | NodeKind::Variables => 0,
            NodeKind::Set
            | NodeKind::Element
            | NodeKind::Index
            | NodeKind::Call
            | NodeKind::Group
            | NodeKind::Unary
            | NodeKind::Loop
            | NodeKind::Return
            | NodeKind::Control
            | NodeKind::Body
            | NodeKind::Closing
            | NodeKind::Constant => 1,
            _ => 2,
        }
    }
}

/// A node of the syntax tree: what it is, where it stands, and the indexes of its parts, which are below its own.
// Parts are indexes into the lent list: a compiler without a heap has no boxes.
#[derive(Clone, Copy)]
pub struct TreeRecord {
    pub kind: NodeKind,
    pub operator: Tag,
    pub place: u16,
    pub value: usize,
    pub first: usize,
    pub second: usize,
}

impl TreeRecord {
    /// The record that keeps nothing.
    pub const ZERO: TreeRecord = TreeRecord {
        kind: NodeKind::Empty,
        operator: Tag::EndOfSource,
        place: 0,
        value: 0,
        first: 0,
        second: 0,
    };
}

/// A node of the tree, with the indexes of its parts.
pub fn node(
    kind: NodeKind,
    operator: Tag,
    place: u16,
    value: usize,
    first: usize,
    second: usize,
) -> TreeRecord
    ensures { result ≡ entry (label kind operator place value) first second }
{
    TreeRecord {
        kind,
        operator,
        place,
        value,
        first,
        second,
    }
}

/// A node without operator.
pub fn placed(kind: NodeKind, place: u16, value: usize, first: usize, second: usize) -> TreeRecord
    ensures { result ≡ entry (label kind EndOfSource place value) first second }
{
    node(kind, Tag::EndOfSource, place, value, first, second)
}

/// A node without operator, place and value.
pub fn bare(kind: NodeKind, first: usize, second: usize) -> TreeRecord
    ensures { result ≡ entry (label kind EndOfSource 0 0) first second }
{
    placed(kind, 0, 0, first, second)
}
