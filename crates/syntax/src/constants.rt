ghost use Rattle.std.specs.Prelude.{◌≡◌, ℕ};
ghost use Rattle.grammar.specs.Codes.{code};
ghost use Rattle.grammar.specs.Ebnf.{mem, seq, rep, ref, opt};
ghost use Rattle.grammar.specs.Language.{Elem, Range, Set, n};
ghost use Rattle.grammar.specs.Sets.{firsts};
ghost use Rattle.syntax.specs.Actions.{name, separated};
ghost use Rattle.syntax.specs.Forms.{comma_range, numeral, number_of};
ghost use Rattle.syntax.specs.Post.{Parses, Goes, Lays};

use crate::step::{Descent, Stop};
use crate::tree::{NodeKind, bare, placed};
use vocabulary::Tag;

// A list of tags of its own: a function over a list of tags would say no more.
/// A symbol that a constant element begins with.
pub fn begins_elem(tag: Tag) -> bool
    ensures { result ≡ mem (code tag) (firsts Elem) }
{
    matches!(tag, Tag::Minus | Tag::Number | Tag::Identifier)
}

impl Descent<'_> {
    /// A name, by its place and length.
    pub fn name(&mut self) -> Result<usize, Stop>
        ensures { (d e : ℕ) → Goes d e n (λ s rs v. Lays 0 (name s rs v)) self.old result self.new }
    {
        let name = self.expect(Tag::Identifier)?;
        let length = self.word_length(name);
        Ok(self.push(placed(NodeKind::Name, name.place, length, 0, 0)))
    }

    // As a name, with a value in place of a length: the two have nothing but the order of their steps in common.
    /// A number.
    pub(crate) fn numeral(&mut self) -> Result<usize, Stop>
        ensures { (d e : ℕ) → Goes d e numeral (λ s rs v. Lays 0 (number_of s rs v)) self.old result self.new }
    {
        let digits = self.expect(Tag::Number)?;
        let value = self.number_at(digits);
        Ok(self.push(placed(NodeKind::Number, digits.place, value, 0, 0)))
    }

    /// A constant element: a number, a negative number, or a name.
    pub fn elem(&mut self) -> Result<usize, Stop>
        ensures { (d e : ℕ) → Parses d e 0 Elem self.old result self.new }
    {
        match self.next() {
            Tag::Minus => {
                let sign = self.pass();
                let number = self.expect(Tag::Number)?;
                let value = self.number_at(number);
                Ok(self.push(placed(NodeKind::Negative, sign.place, value, 0, 0)))
            }
            Tag::Number => self.numeral(),
            _ => self.name(),
        }
    }

    /// A set element or a range of them.
    fn range(&mut self) -> Result<usize, Stop>
        ensures { (d e : ℕ) → Parses d e 0 Range self.old result self.new }
    {
        let first = self.elem()?;
        if !self.accept(Tag::Range) {
            return Ok(first);
        }
        let last = self.elem()?;
        Ok(self.push(bare(NodeKind::Range, first, last)))
    }

    /// The list of the elements and ranges of a set.
    // One reader for every list would need the item's rule as a ghost value and a clause on the closure that reads it, which is more than these lines.
    fn ranges(&mut self) -> Result<usize, Stop>
        ensures { (d e : ℕ) → Goes d e (opt (seq (ref Range) (rep comma_range))) (λ s rs v. Lays 2 (separated s rs v)) self.old result self.new }
    {
        let mut all = self.push(bare(NodeKind::Empty, 0, 0));
        if !begins_elem(self.next()) {
            return Ok(all);
        }
        let first = self.range()?;
        all = self.push(bare(NodeKind::Link, all, first));
        while self.accept(Tag::Comma) {
            let item = self.range()?;
            all = self.push(bare(NodeKind::Link, all, item));
        }
        Ok(all)
    }

    /// A set.
    pub fn set(&mut self) -> Result<usize, Stop>
        ensures { (d e : ℕ) → Parses d e 0 Set self.old result self.new }
    {
        let opening = self.expect(Tag::OpenCurly)?;
        let all = self.ranges()?;
        self.expect(Tag::CloseCurly)?;
        Ok(self.push(placed(NodeKind::Set, opening.place, 0, all, 0)))
    }
}
