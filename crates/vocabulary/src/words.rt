ghost use Rattle.std.specs.Prelude.{◌≡◌};
ghost use Rattle.vocabulary.specs.Tags.{named, word_tag};

use crate::tag::Tag;

/// The forty reserved words.
const RESERVED: [Tag; 40] = [
    Tag::And,
    Tag::Array,
    Tag::Begin,
    Tag::By,
    Tag::Case,
    Tag::Const,
    Tag::Definition,
    Tag::Div,
    Tag::Do,
    Tag::Else,
    Tag::Elsif,
    Tag::End,
    Tag::Exit,
    Tag::Export,
    Tag::For,
    Tag::From,
    Tag::If,
    Tag::Implementation,
    Tag::Import,
    Tag::In,
    Tag::Loop,
    Tag::Mod,
    Tag::Module,
    Tag::Not,
    Tag::Of,
    Tag::Or,
    Tag::Pointer,
    Tag::Procedure,
    Tag::Qualified,
    Tag::Record,
    Tag::Repeat,
    Tag::Return,
    Tag::Set,
    Tag::Then,
    Tag::To,
    Tag::Type,
    Tag::Until,
    Tag::Var,
    Tag::While,
    Tag::With,
];

/// The tag among these whose spelling is the word, or an identifier's.
fn tag_among(tags: &[Tag], word: &[u8]) -> Tag
    ensures { result ≡ named tags.now word.now }
{
    tags.iter()
        .find(|tag| tag.spelling().as_bytes() == word)
        .copied()
        .unwrap_or(Tag::Identifier)
}

/// The tag of a word: its own if it is reserved, else an identifier's.
pub fn word_tag(word: &[u8]) -> Tag
    ensures { result ≡ word_tag word.now }
{
    tag_among(&RESERVED, word)
}
