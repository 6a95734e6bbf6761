ghost use Rattle.std.specs.Prelude.{◌≡◌, ℕ};
ghost use Rattle.grammar.specs.Claims.{limit};
ghost use Rattle.grammar.specs.Ebnf.{rep, opt, ref};
ghost use Rattle.grammar.specs.Language.{Index, Args, Expr, Stats, Stat, Action, If, While, Repeat, Loop, Return, For, Control};
ghost use Rattle.syntax.specs.Actions.{list, arm, behind, maybe};
ghost use Rattle.syntax.specs.Forms.{elsif_arm, else_part, by_part, assigning, assigned, targeted};
ghost use Rattle.syntax.specs.Post.{Parses, Goes, Extends, Lays};
ghost use Rattle.syntax.specs.Steps.{root};
ghost use Rattle.syntax.specs.Symbols.{word_length};

use lexer::SymbolRecord;
use syntax::{Descent, NodeKind, Stop, bare, begins_expr, placed};
use vocabulary::Tag;

/// At most so many symbols may enclose a factor, and so many a statement.
pub(crate) const LIMIT: u8 = 16;

// A loop for each list: one over the item and its test would need a clause over every grammar of an item.
/// Statements with semicolons between them, inside at most `room` more enclosures.
#[cycle(statements)]
pub(crate) fn stats(descent: &mut Descent<'_>, room: u8) -> Result<usize, Stop>
    ensures { Parses limit room 1 Stats descent.old result descent.new }
{
    let mut all = stat(descent, room)?;
    while descent.accept(Tag::Semicolon) {
        let item = stat(descent, room)?;
        all = descent.push(bare(NodeKind::Sequence, all, item));
    }
    Ok(all)
}

/// A statement, or nothing.
#[cycle(statements)]
fn stat(descent: &mut Descent<'_>, room: u8) -> Result<usize, Stop>
    ensures { Parses limit room 1 Stat descent.old result descent.new }
{
    // A match and no table of functions: they take different rooms, and most are in a cycle with this one.
    match descent.next() {
        Tag::Identifier => action(descent),
        Tag::Exit => {
            let word = descent.pass();
            Ok(descent.push(placed(NodeKind::Exit, word.place, 0, 0, 0)))
        }
        Tag::If => if_statement(descent, room),
        Tag::While => while_statement(descent, room),
        Tag::Repeat => repeat_statement(descent, room),
        Tag::Loop => loop_statement(descent, room),
        Tag::Return => return_statement(descent),
        Tag::For => for_statement(descent, room),
        _ => Ok(descent.push(bare(NodeKind::Empty, 0, 0))),
    }
}

/// The variable or element behind a name that is read: an index or none.
fn target(descent: &mut Descent<'_>, name: SymbolRecord) -> Result<usize, Stop>
    ensures { (e : ℕ) → Goes limit e (opt (ref Index)) (λ s rs v. Lays 1 (targeted name.place (word_length s name.place) v)) descent.old result descent.new }
{
    let length = descent.word_length(name);
    if descent.is_next(Tag::OpenSquare) {
        let part = descent.index(LIMIT)?;
        return Ok(descent.push(placed(NodeKind::Element, name.place, length, part, 0)));
    }
    Ok(descent.push(placed(NodeKind::Name, name.place, length, 0, 0)))
}

/// The rest of an assignment behind its name.
fn assignment(descent: &mut Descent<'_>, name: SymbolRecord) -> Result<usize, Stop>
    ensures { (e : ℕ) → Goes limit e assigning (λ s rs v. Lays 0 (assigned s rs name.place (word_length s name.place) v)) descent.old result descent.new }
{
    let variable = target(descent, name)?;
    let becomes = descent.expect(Tag::Becomes)?;
    let value = descent.expr(LIMIT)?;
    Ok(descent.push(placed(NodeKind::Assign, becomes.place, 0, variable, value)))
}

// A part that may be absent, written out: a function over the part would need a clause over every grammar of one.
/// The arguments of a call, or nothing.
fn arguments(descent: &mut Descent<'_>) -> Result<usize, Stop>
    ensures { (e : ℕ) → Goes limit e (opt (ref Args)) (λ s rs v. Lays 1 (maybe s rs v)) descent.old result descent.new }
{
    if descent.is_next(Tag::OpenRound) {
        descent.args(LIMIT)
    } else {
        Ok(descent.push(bare(NodeKind::Empty, 0, 0)))
    }
}

/// A statement that begins with a name: an assignment or a call.
fn action(descent: &mut Descent<'_>) -> Result<usize, Stop>
    ensures { (e : ℕ) → Parses limit e 0 Action descent.old result descent.new }
{
    let name = descent.expect(Tag::Identifier)?;
    match descent.next() {
        Tag::OpenSquare | Tag::Becomes => assignment(descent, name),
        _ => {
            let length = descent.word_length(name);
            let part = arguments(descent)?;
            Ok(descent.push(placed(NodeKind::Call, name.place, length, part, 0)))
        }
    }
}

/// The arms that ELSIF begins, added to the list of those before.
// A loop for each list: one over the item and its test would need a clause over every grammar of an item.
#[cycle(statements)]
fn more_arms(descent: &mut Descent<'_>, room: u8, before: usize) -> Result<usize, Stop>
    requires { before ≡ root descent.old }
    ensures { Goes limit room (rep elsif_arm) (λ s rs v. Extends 0 (λ a. list (arm s rs) a v)) descent.old result descent.new }
{
    let mut all = before;
    while descent.is_next(Tag::Elsif) {
        let word = descent.pass();
        let condition = descent.expr(LIMIT)?;
        descent.expect(Tag::Then)?;
        let body = stats(descent, room)?;
        let item = descent.push(placed(NodeKind::Arm, word.place, 0, condition, body));
        all = descent.push(bare(NodeKind::Link, all, item));
    }
    Ok(all)
}

// A part that may be absent, written out: a function over the part would need a clause over every grammar of one.
/// What stands behind ELSE, or nothing.
#[cycle(statements)]
fn otherwise(descent: &mut Descent<'_>, room: u8) -> Result<usize, Stop>
    ensures { Goes limit room else_part (λ s rs v. Lays 1 (behind s rs v)) descent.old result descent.new }
{
    if descent.accept(Tag::Else) {
        stats(descent, room)
    } else {
        Ok(descent.push(bare(NodeKind::Empty, 0, 0)))
    }
}

/// IF.
#[cycle(statements)]
fn if_statement(descent: &mut Descent<'_>, room: u8) -> Result<usize, Stop>
    ensures { Parses limit room 0 If descent.old result descent.new }
{
    let (word, inside) = descent.open(Tag::If, room)?;
    let condition = descent.expr(LIMIT)?;
    descent.expect(Tag::Then)?;
    let body = stats(descent, inside)?;
    let first = descent.push(placed(NodeKind::Arm, word.place, 0, condition, body));
    let arms = more_arms(descent, inside, first)?;
    let other = otherwise(descent, inside)?;
    let end = descent.expect(Tag::End)?;
    Ok(descent.push(placed(NodeKind::If, word.place, end.place as usize, arms, other)))
}

/// WHILE.
#[cycle(statements)]
fn while_statement(descent: &mut Descent<'_>, room: u8) -> Result<usize, Stop>
    ensures { Parses limit room 0 While descent.old result descent.new }
{
    let (word, inside) = descent.open(Tag::While, room)?;
    let condition = descent.expr(LIMIT)?;
    descent.expect(Tag::Do)?;
    let body = stats(descent, inside)?;
    let end = descent.expect(Tag::End)?;
    Ok(descent.push(placed(
        NodeKind::While,
        word.place,
        end.place as usize,
        condition,
        body,
    )))
}

/// REPEAT.
#[cycle(statements)]
fn repeat_statement(descent: &mut Descent<'_>, room: u8) -> Result<usize, Stop>
    ensures { Parses limit room 0 Repeat descent.old result descent.new }
{
    let (word, inside) = descent.open(Tag::Repeat, room)?;
    let body = stats(descent, inside)?;
    descent.expect(Tag::Until)?;
    let condition = descent.expr(LIMIT)?;
    Ok(descent.push(placed(NodeKind::Repeat, word.place, 0, body, condition)))
}

/// LOOP.
#[cycle(statements)]
fn loop_statement(descent: &mut Descent<'_>, room: u8) -> Result<usize, Stop>
    ensures { Parses limit room 0 Loop descent.old result descent.new }
{
    let (word, inside) = descent.open(Tag::Loop, room)?;
    let body = stats(descent, inside)?;
    let end = descent.expect(Tag::End)?;
    Ok(descent.push(placed(NodeKind::Loop, word.place, end.place as usize, body, 0)))
}

// A part that may be absent, written out: a function over the part would need a clause over every grammar of one.
/// The value behind RETURN, or nothing.
fn returned(descent: &mut Descent<'_>) -> Result<usize, Stop>
    ensures { (e : ℕ) → Goes limit e (opt (ref Expr)) (λ s rs v. Lays 1 (maybe s rs v)) descent.old result descent.new }
{
    if begins_expr(descent.next()) {
        descent.expr(LIMIT)
    } else {
        Ok(descent.push(bare(NodeKind::Empty, 0, 0)))
    }
}

/// RETURN.
fn return_statement(descent: &mut Descent<'_>) -> Result<usize, Stop>
    ensures { (e : ℕ) → Parses limit e 0 Return descent.old result descent.new }
{
    let word = descent.expect(Tag::Return)?;
    let value = returned(descent)?;
    Ok(descent.push(placed(NodeKind::Return, word.place, 0, value, 0)))
}

// A part that may be absent, written out: a function over the part would need a clause over every grammar of one.
/// The step behind BY, or nothing.
fn step_by(descent: &mut Descent<'_>) -> Result<usize, Stop>
    ensures { (d e : ℕ) → Goes d e by_part (λ s rs v. Lays 1 (behind s rs v)) descent.old result descent.new }
{
    if descent.accept(Tag::By) {
        descent.elem()
    } else {
        Ok(descent.push(bare(NodeKind::Empty, 0, 0)))
    }
}

/// The control of a FOR: its name and its terms.
fn control(descent: &mut Descent<'_>) -> Result<usize, Stop>
    ensures { (e : ℕ) → Parses limit e 0 Control descent.old result descent.new }
{
    let name = descent.expect(Tag::Identifier)?;
    let length = descent.word_length(name);
    descent.expect(Tag::Becomes)?;
    let first = descent.expr(LIMIT)?;
    descent.expect(Tag::To)?;
    let last = descent.expr(LIMIT)?;
    let limits = descent.push(bare(NodeKind::Limits, first, last));
    let step = step_by(descent)?;
    let terms = descent.push(bare(NodeKind::Terms, limits, step));
    Ok(descent.push(placed(NodeKind::Control, name.place, length, terms, 0)))
}

/// FOR.
#[cycle(statements)]
fn for_statement(descent: &mut Descent<'_>, room: u8) -> Result<usize, Stop>
    ensures { Parses limit room 0 For descent.old result descent.new }
{
    let (word, inside) = descent.open(Tag::For, room)?;
    let head = control(descent)?;
    descent.expect(Tag::Do)?;
    let body = stats(descent, inside)?;
    let end = descent.expect(Tag::End)?;
    Ok(descent.push(placed(NodeKind::For, word.place, end.place as usize, head, body)))
}
