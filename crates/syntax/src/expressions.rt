ghost use Rattle.std.specs.Prelude.{◌≡◌, ℕ};
ghost use Rattle.grammar.specs.Codes.{code};
ghost use Rattle.grammar.specs.Ebnf.{mem, seq, rep, ref, opt};
ghost use Rattle.grammar.specs.Language.{Index, Args, Expr, Sum, Term, Factor};
ghost use Rattle.grammar.specs.Sets.{firsts};
ghost use Rattle.syntax.specs.declared.tree.NodeKind.TheVariants as kind;
ghost use Rattle.syntax.specs.Actions.{separated, signed};
ghost use Rattle.syntax.specs.Forms.{comma_expr, sign_term, selector, selected, relations, additions, multiplications, signs};
ghost use Rattle.syntax.specs.Post.{Parses, Goes, Lays};
ghost use Rattle.syntax.specs.Symbols.{word_length};
ghost use Rattle.syntax.specs.Syntax.{entry, label};

use crate::step::{Descent, Stop};
use crate::tree::{NodeKind, TreeRecord, bare, node, placed};
use lexer::SymbolRecord;
use vocabulary::Tag;

// Each class of tags is a list of its own: a function over a list of tags would say no more.
/// A relation between two sums.
fn is_relation(tag: Tag) -> bool
    ensures { result ≡ mem (code tag) relations }
{
    matches!(
        tag,
        Tag::Equal | Tag::NotEqual | Tag::Less | Tag::AtMost | Tag::Greater | Tag::AtLeast | Tag::In
    )
}

/// An operator between two terms.
fn is_addition(tag: Tag) -> bool
    ensures { result ≡ mem (code tag) additions }
{
    matches!(tag, Tag::Plus | Tag::Minus | Tag::Or)
}

/// An operator between two factors.
fn is_multiplication(tag: Tag) -> bool
    ensures { result ≡ mem (code tag) multiplications }
{
    matches!(tag, Tag::Times | Tag::Div | Tag::Mod | Tag::And)
}

/// The sign of a term.
fn is_sign(tag: Tag) -> bool
    ensures { result ≡ mem (code tag) signs }
{
    matches!(tag, Tag::Plus | Tag::Minus)
}

/// A symbol that an expression begins with.
pub fn begins_expr(tag: Tag) -> bool
    ensures { result ≡ mem (code tag) (firsts Expr) }
{
    matches!(
        tag,
        Tag::Plus
            | Tag::Minus
            | Tag::Number
            | Tag::OpenCurly
            | Tag::Identifier
            | Tag::OpenRound
            | Tag::Not
    )
}

/// The node of an operator between two operands.
fn binary(operator: SymbolRecord, left: usize, right: usize) -> TreeRecord
    ensures { result ≡ entry (label kind.Binary operator.tag operator.place 0) left right }
{
    node(
        NodeKind::Binary,
        operator.tag,
        operator.place,
        0,
        left,
        right,
    )
}

impl Descent<'_> {
    /// An expression: a sum, or a relation between two.
    #[cycle(expressions)]
    pub fn expr(&mut self, room: u8) -> Result<usize, Stop>
        ensures { (e : ℕ) → Parses room e 0 Expr self.old result self.new }
    {
        let left = self.sum(room)?;
        if !is_relation(self.next()) {
            return Ok(left);
        }
        let operator = self.pass();
        let right = self.sum(room)?;
        Ok(self.push(binary(operator, left, right)))
    }

    // A loop for each list: one over the item and its test would need a clause over every grammar of an item.
    /// A sum: terms, the first of which may have a sign.
    #[cycle(expressions)]
    fn sum(&mut self, room: u8) -> Result<usize, Stop>
        ensures { (e : ℕ) → Parses room e 0 Sum self.old result self.new }
    {
        let mut all = self.signed_term(room)?;
        while is_addition(self.next()) {
            let operator = self.pass();
            let right = self.term(room)?;
            all = self.push(binary(operator, all, right));
        }
        Ok(all)
    }

    /// A term that may have a sign.
    #[cycle(expressions)]
    fn signed_term(&mut self, room: u8) -> Result<usize, Stop>
        ensures { (e : ℕ) → Goes room e sign_term (λ s rs v. Lays 0 (signed s rs v.0 v.1)) self.old result self.new }
    {
        if !is_sign(self.next()) {
            return self.term(room);
        }
        let sign = self.pass();
        let operand = self.term(room)?;
        Ok(self.push(node(NodeKind::Unary, sign.tag, sign.place, 0, operand, 0)))
    }

    /// A term: factors.
    // One loop for this and for sums would need the operand's rule as a ghost value and a clause on the closure that reads it, which is more than these lines.
    #[cycle(expressions)]
    fn term(&mut self, room: u8) -> Result<usize, Stop>
        ensures { (e : ℕ) → Parses room e 0 Term self.old result self.new }
    {
        let mut all = self.factor(room)?;
        while is_multiplication(self.next()) {
            let operator = self.pass();
            let right = self.factor(room)?;
            all = self.push(binary(operator, all, right));
        }
        Ok(all)
    }

    /// A factor, inside at most `room` more enclosures.
    #[cycle(expressions)]
    fn factor(&mut self, room: u8) -> Result<usize, Stop>
        ensures { (e : ℕ) → Parses room e 0 Factor self.old result self.new }
    {
        match self.next() {
            Tag::Number => self.numeral(),
            Tag::OpenCurly => self.set(),
            Tag::Identifier => {
                let name = self.pass();
                self.selection(room, name)
            }
            Tag::OpenRound => {
                let (opening, inside) = self.open(Tag::OpenRound, room)?;
                let inner = self.expr(inside)?;
                self.expect(Tag::CloseRound)?;
                Ok(self.push(placed(NodeKind::Group, opening.place, 0, inner, 0)))
            }
            // NOT, or a symbol that no factor begins with
            _ => {
                let (operator, inside) = self.open(Tag::Not, room)?;
                let operand = self.factor(inside)?;
                Ok(self.push(node(NodeKind::Unary, operator.tag, operator.place, 0, operand, 0)))
            }
        }
    }

    /// What stands behind a name: an index, arguments or nothing; the name goes into the record.
    #[cycle(expressions)]
    fn selection(&mut self, room: u8, name: SymbolRecord) -> Result<usize, Stop>
        ensures { (e : ℕ) → Goes room e selector (λ s rs v. Lays 1 (selected name.place (word_length s name.place) v)) self.old result self.new }
    {
        let length = self.word_length(name);
        match self.next() {
            Tag::OpenSquare => {
                let part = self.index(room)?;
                Ok(self.push(placed(NodeKind::Element, name.place, length, part, 0)))
            }
            Tag::OpenRound => {
                let part = self.args(room)?;
                Ok(self.push(placed(NodeKind::Call, name.place, length, part, 0)))
            }
            _ => Ok(self.push(placed(NodeKind::Name, name.place, length, 0, 0))),
        }
    }

    /// An index in brackets.
    #[cycle(expressions)]
    pub fn index(&mut self, room: u8) -> Result<usize, Stop>
        ensures { (e : ℕ) → Parses room e 0 Index self.old result self.new }
    {
        let (opening, inside) = self.open(Tag::OpenSquare, room)?;
        let inner = self.expr(inside)?;
        self.expect(Tag::CloseSquare)?;
        Ok(self.push(placed(NodeKind::Index, opening.place, 0, inner, 0)))
    }

    /// Arguments in parentheses.
    #[cycle(expressions)]
    pub fn args(&mut self, room: u8) -> Result<usize, Stop>
        ensures { (e : ℕ) → Parses room e 0 Args self.old result self.new }
    {
        let (_, inside) = self.open(Tag::OpenRound, room)?;
        let all = self.arguments(inside)?;
        self.expect(Tag::CloseRound)?;
        Ok(all)
    }

    /// The list of arguments.
    // One reader for every list would need the item's rule as a ghost value and a clause on the closure that reads it, which is more than these lines.
    #[cycle(expressions)]
    fn arguments(&mut self, room: u8) -> Result<usize, Stop>
        ensures { (e : ℕ) → Goes room e (opt (seq (ref Expr) (rep comma_expr))) (λ s rs v. Lays 2 (separated s rs v)) self.old result self.new }
    {
        let mut all = self.push(bare(NodeKind::Empty, 0, 0));
        if !begins_expr(self.next()) {
            return Ok(all);
        }
        let first = self.expr(room)?;
        all = self.push(bare(NodeKind::Link, all, first));
        while self.accept(Tag::Comma) {
            let item = self.expr(room)?;
            all = self.push(bare(NodeKind::Link, all, item));
        }
        Ok(all)
    }
}
