ghost use Rattle.std.specs.Prelude.{◌≡◌, ℕ};
ghost use Rattle.grammar.specs.Claims.{limit};
ghost use Rattle.grammar.specs.Codes.{code};
ghost use Rattle.grammar.specs.Ebnf.{mem, seq, rep, opt, ref, alt};
ghost use Rattle.grammar.specs.Language.{Module, Decl, Proc, Heading, Pars, Body, Const, «Type», n};
ghost use Rattle.grammar.specs.Sets.{firsts};
ghost use Rattle.syntax.specs.Actions.{list, names, separated, result_type, behind, either, empty};
ghost use Rattle.syntax.specs.Forms.{comma_name, semicolon_pars, result_part, begin_part, declaring, const_part, constants_of, var_part, variables_of, array_type, array_of, closes};
ghost use Rattle.syntax.specs.Post.{Parses, Goes, Lays, Spares};

use crate::statements::{LIMIT, stats};
use syntax::{Descent, NodeKind, Stop, bare, begins_elem, placed};
use vocabulary::Tag;

// A loop for each list: one over the item and its test would need a clause over every grammar of an item.
/// Names with commas between them.
fn names(descent: &mut Descent<'_>) -> Result<usize, Stop>
    ensures { (d e : ℕ) → Goes d e (seq n (rep comma_name)) (λ s rs v. Lays 0 (names s rs v.0 v.1)) descent.old result descent.new }
{
    let mut all = descent.name()?;
    while descent.accept(Tag::Comma) {
        let item = descent.name()?;
        all = descent.push(bare(NodeKind::Link, all, item));
    }
    Ok(all)
}

/// A group of parameters.
fn pars(descent: &mut Descent<'_>) -> Result<usize, Stop>
    ensures { (d e : ℕ) → Parses d e 0 Pars descent.old result descent.new }
{
    let all = names(descent)?;
    descent.expect(Tag::Colon)?;
    let kind = descent.name()?;
    Ok(descent.push(bare(NodeKind::Parameters, all, kind)))
}

/// The list of a procedure's groups of parameters.
// One reader for every list would need the item's rule as a ghost value and a clause on the closure that reads it, which is more than these lines.
fn parameters(descent: &mut Descent<'_>) -> Result<usize, Stop>
    ensures { (d e : ℕ) → Goes d e (opt (seq (ref Pars) (rep semicolon_pars))) (λ s rs v. Lays 2 (separated s rs v)) descent.old result descent.new }
{
    let mut all = descent.push(bare(NodeKind::Empty, 0, 0));
    if !descent.is_next(Tag::Identifier) {
        return Ok(all);
    }
    let first = pars(descent)?;
    all = descent.push(bare(NodeKind::Link, all, first));
    while descent.accept(Tag::Semicolon) {
        let item = pars(descent)?;
        all = descent.push(bare(NodeKind::Link, all, item));
    }
    Ok(all)
}

// A part that may be absent, written out: a function over the part would need a clause over every grammar of one.
/// The type of a procedure's result, or nothing.
fn result_type(descent: &mut Descent<'_>) -> Result<usize, Stop>
    ensures { (d e : ℕ) → Goes d e result_part (λ s rs v. Lays 1 (result_type s rs v)) descent.old result descent.new }
{
    if descent.accept(Tag::Colon) {
        descent.name()
    } else {
        Ok(descent.push(bare(NodeKind::Empty, 0, 0)))
    }
}

/// What stands behind a procedure's name: its parameters and the type of its result.
fn heading(descent: &mut Descent<'_>) -> Result<usize, Stop>
    ensures { (d e : ℕ) → Parses d e 3 Heading descent.old result descent.new }
{
    if !descent.accept(Tag::OpenRound) {
        let none = descent.push(bare(NodeKind::Empty, 0, 0));
        let nothing = descent.push(bare(NodeKind::Empty, 0, 0));
        return Ok(descent.push(bare(NodeKind::Heading, none, nothing)));
    }
    let all = parameters(descent)?;
    descent.expect(Tag::CloseRound)?;
    let kind = result_type(descent)?;
    Ok(descent.push(bare(NodeKind::Heading, all, kind)))
}

// A part that may be absent, written out: a function over the part would need a clause over every grammar of one.
/// The statements of a body, or nothing.
fn statements(descent: &mut Descent<'_>) -> Result<usize, Stop>
    ensures { Goes limit limit begin_part (λ s rs v. Lays 1 (behind s rs v)) descent.old result descent.new }
{
    if descent.accept(Tag::Begin) {
        stats(descent, LIMIT)
    } else {
        Ok(descent.push(bare(NodeKind::Empty, 0, 0)))
    }
}

/// A body.
fn body(descent: &mut Descent<'_>) -> Result<usize, Stop>
    ensures { Parses limit limit 0 Body descent.old result descent.new }
{
    let all = statements(descent)?;
    let end = descent.expect(Tag::End)?;
    Ok(descent.push(placed(NodeKind::Body, end.place, 0, all, 0)))
}

/// A body and the name that closes it.
fn closed(descent: &mut Descent<'_>) -> Result<usize, Stop>
    ensures { Goes limit limit (seq (ref Body) n) (λ s rs v. Lays 0 (closes s rs v.1 v.0)) descent.old result descent.new }
{
    let inner = body(descent)?;
    let name = descent.expect(Tag::Identifier)?;
    let length = descent.word_length(name);
    Ok(descent.push(placed(NodeKind::Closing, name.place, length, inner, 0)))
}

/// A constant: an element or a set.
fn constant(descent: &mut Descent<'_>) -> Result<usize, Stop>
    ensures { (d e : ℕ) → Parses d e 0 Const descent.old result descent.new }
{
    if begins_elem(descent.next()) {
        descent.elem()
    } else {
        descent.set()
    }
}

/// An array type.
fn array(descent: &mut Descent<'_>) -> Result<usize, Stop>
    ensures { (d e : ℕ) → Goes d e array_type (λ s rs v. Lays 0 (array_of s rs v)) descent.old result descent.new }
{
    let array = descent.expect(Tag::Array)?;
    let opening = descent.expect(Tag::OpenSquare)?;
    let first = descent.elem()?;
    descent.expect(Tag::Range)?;
    let last = descent.elem()?;
    let bounds = descent.push(placed(NodeKind::Bounds, opening.place, 0, first, last));
    descent.expect(Tag::CloseSquare)?;
    descent.expect(Tag::Of)?;
    let kind = descent.name()?;
    Ok(descent.push(placed(NodeKind::Array, array.place, 0, bounds, kind)))
}

/// A type: a name or an array.
fn type_of(descent: &mut Descent<'_>) -> Result<usize, Stop>
    ensures { (d e : ℕ) → Parses d e 0 «Type» descent.old result descent.new }
{
    if descent.is_next(Tag::Identifier) {
        descent.name()
    } else {
        array(descent)
    }
}

// A loop for each list: one over the item and its test would need a clause over every grammar of an item.
/// The list of the constants that CONST declares.
fn constants(descent: &mut Descent<'_>) -> Result<usize, Stop>
    ensures { (d e : ℕ) → Goes d e const_part (λ s rs v. Spares (constants_of s rs v)) descent.old result descent.new }
{
    let word = descent.expect(Tag::Const)?;
    let mut all = descent.push(placed(NodeKind::Constants, word.place, 0, 0, 0));
    while descent.is_next(Tag::Identifier) {
        let name = descent.pass();
        let length = descent.word_length(name);
        descent.expect(Tag::Equal)?;
        let value = constant(descent)?;
        descent.expect(Tag::Semicolon)?;
        let item = descent.push(placed(NodeKind::Constant, name.place, length, value, 0));
        all = descent.push(bare(NodeKind::Link, all, item));
    }
    Ok(all)
}

// A loop for each list: one over the item and its test would need a clause over every grammar of an item.
/// The list of the variables that VAR declares.
fn variables(descent: &mut Descent<'_>) -> Result<usize, Stop>
    ensures { (d e : ℕ) → Goes d e var_part (λ s rs v. Spares (variables_of s rs v)) descent.old result descent.new }
{
    let word = descent.expect(Tag::Var)?;
    let mut all = descent.push(placed(NodeKind::Variables, word.place, 0, 0, 0));
    while descent.is_next(Tag::Identifier) {
        let group = names(descent)?;
        descent.expect(Tag::Colon)?;
        let kind = type_of(descent)?;
        descent.expect(Tag::Semicolon)?;
        let item = descent.push(bare(NodeKind::Variable, group, kind));
        all = descent.push(bare(NodeKind::Link, all, item));
    }
    Ok(all)
}

// A list of tags of its own: a function over a list of tags would say no more.
/// A symbol that declarations of constants or of variables begin with.
fn begins_decl(tag: Tag) -> bool
    ensures { result ≡ mem (code tag) (firsts Decl) }
{
    matches!(tag, Tag::Const | Tag::Var)
}

/// The list of declared constants or of declared variables.
fn decl(descent: &mut Descent<'_>) -> Result<usize, Stop>
    ensures { (d e : ℕ) → Goes d e (ref Decl) (λ s rs v. Spares v) descent.old result descent.new }
{
    if descent.is_next(Tag::Const) {
        constants(descent)
    } else {
        variables(descent)
    }
}

// A loop for each list: one over the item and its test would need a clause over every grammar of an item.
/// The list of a procedure's declarations.
fn decls(descent: &mut Descent<'_>) -> Result<usize, Stop>
    ensures { (d e : ℕ) → Goes d e (rep (ref Decl)) (λ s rs v. Lays 1 (list (λ x. x) empty v)) descent.old result descent.new }
{
    let mut all = descent.push(bare(NodeKind::Empty, 0, 0));
    while begins_decl(descent.next()) {
        let item = decl(descent)?;
        all = descent.push(bare(NodeKind::Link, all, item));
    }
    Ok(all)
}

/// A procedure.
fn proc(descent: &mut Descent<'_>) -> Result<usize, Stop>
    ensures { Goes limit limit (ref Proc) (λ s rs v. Spares v) descent.old result descent.new }
{
    descent.expect(Tag::Procedure)?;
    let name = descent.expect(Tag::Identifier)?;
    let length = descent.word_length(name);
    let head = heading(descent)?;
    descent.expect(Tag::Semicolon)?;
    let list = decls(descent)?;
    let inner = closed(descent)?;
    let block = descent.push(bare(NodeKind::Block, list, inner));
    let whole = descent.push(placed(NodeKind::Procedure, name.place, length, head, block));
    descent.expect(Tag::Semicolon)?;
    Ok(whole)
}

// A list of tags of its own: a function over a list of tags would say no more.
/// A symbol that declarations or procedures begin with.
fn begins_declaration(tag: Tag) -> bool
    ensures { result ≡ mem (code tag) declaring }
{
    matches!(tag, Tag::Const | Tag::Var | Tag::Procedure)
}

/// Declarations of constants or of variables, or a procedure.
fn declaration(descent: &mut Descent<'_>) -> Result<usize, Stop>
    ensures { Goes limit limit (alt (ref Decl) (ref Proc)) (λ s rs v. Spares (either s rs v)) descent.old result descent.new }
{
    if begins_decl(descent.next()) {
        decl(descent)
    } else {
        proc(descent)
    }
}

// A loop for each list: one over the item and its test would need a clause over every grammar of an item.
/// The list of a module's declarations and procedures.
fn declarations(descent: &mut Descent<'_>) -> Result<usize, Stop>
    ensures { Goes limit limit (rep (alt (ref Decl) (ref Proc))) (λ s rs v. Lays 1 (list (either s rs) empty v)) descent.old result descent.new }
{
    let mut all = descent.push(bare(NodeKind::Empty, 0, 0));
    while begins_declaration(descent.next()) {
        let item = declaration(descent)?;
        all = descent.push(bare(NodeKind::Link, all, item));
    }
    Ok(all)
}

/// A module.
pub(crate) fn module(descent: &mut Descent<'_>) -> Result<usize, Stop>
    ensures { Parses limit limit 0 Module descent.old result descent.new }
{
    descent.expect(Tag::Module)?;
    let name = descent.expect(Tag::Identifier)?;
    let length = descent.word_length(name);
    descent.expect(Tag::Semicolon)?;
    let list = declarations(descent)?;
    let inner = closed(descent)?;
    descent.expect(Tag::Period)?;
    Ok(descent.push(placed(NodeKind::Module, name.place, length, list, inner)))
}
