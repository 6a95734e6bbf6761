use vocabulary::Tag;

/// A symbol, with the very stretch of source that it was read from.
// Five cases, and no Option of four: the end is a symbol, with a tag and a place as any.
#[derive(Clone, Copy, PartialEq, Eq, Debug)]
pub enum Symbol<'a> {
    /// A reserved word.
    Reserved(Tag, &'a [u8]),
    /// A word that is not reserved.
    Identifier(&'a [u8]),
    /// A number, well formed and not above the greatest INTEGER.
    Number(&'a [u8]),
    /// A sign.
    Sign(Tag, &'a [u8]),
    /// The end of the source.
    End,
}

/// A symbol, its place, and the place behind its last byte.
#[derive(Clone, Copy, PartialEq, Eq, Debug)]
pub struct Lexeme<'a> {
    pub symbol: Symbol<'a>,
    pub place: usize,
    pub end: usize,
}

/// What is kept of a symbol: its tag and its place.
#[derive(Clone, Copy, PartialEq, Eq, Debug)]
pub struct SymbolRecord {
    pub tag: Tag,
    pub place: u16,
}

/// What stands in front between two symbols.
#[derive(Clone, Copy)]
pub(crate) enum Lead {
    /// Nothing: the source ends.
    Done,
    /// `(*` outside of comments.
    Open,
    /// `(*` in a comment.
    Nest,
    /// `*)` in a comment.
    Close,
    /// A byte to pass over.
    Pass,
    /// A byte that is none of these.
    Stop,
}
