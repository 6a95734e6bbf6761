ghost use Rattle.std.specs.Prelude.{◌≡◌};
ghost use Rattle.lexer.specs.Scan.{tag_of, text_of};

use crate::symbol::Symbol;
use vocabulary::Tag;

impl<'a> Symbol<'a> {
    /// The symbol's tag.
    pub fn tag(self) -> Tag
        ensures { result ≡ tag_of self.entry }
    {
        match self {
            Symbol::Reserved(tag, _) | Symbol::Sign(tag, _) => tag,
            Symbol::Identifier(_) => Tag::Identifier,
            Symbol::Number(_) => Tag::Number,
            Symbol::End => Tag::EndOfSource,
        }
    }

    /// The stretch of source that the symbol was read from, empty for the end.
    pub fn text(self) -> &'a [u8]
        ensures { result.now ≡ text_of self.entry }
    {
        match self {
            Symbol::Reserved(_, text) | Symbol::Sign(_, text) => text,
            Symbol::Identifier(text) | Symbol::Number(text) => text,
            Symbol::End => &[],
        }
    }
}
