ghost use Rattle.std.specs.Prelude.{◌≡◌, ℕ, ◌+◌, ◌<◌, ◌≤◌, ◌++◌, length, IfOk, OnOk};
ghost use Rattle.parser.specs.Parsing.{Stored};
ghost use Rattle.syntax.specs.Steps.{tree_limit};
ghost use Rattle.syntax.specs.Syntax.{Syntax, Shaped};
ghost use Rattle.outline.specs.Order.{joining, line, inner, outlined};

use parser::MAX_RECORDS;
use std::alloc::{AllocError, Global};
use syntax::{NodeKind, TreeRecord};

/// A line of an outline: the index of the record that it shows, and how deep it stands.
#[derive(Clone, Copy)]
pub struct Line {
    pub index: usize,
    pub depth: usize,
}

// A list of kinds of its own: a function over a list of kinds would say no more.
/// Whether a node only joins others, or stands for nothing: it gets no line, and its parts stand in its stead.
fn joins(kind: NodeKind) -> bool
    ensures { result ≡ joining kind }
{
    matches!(kind, NodeKind::Empty | NodeKind::Link | NodeKind::Sequence)
}

/// Adds the line of a node, and answers how deep its parts stand.
fn head(
    kind: NodeKind,
    index: usize,
    depth: usize,
    lines: &mut Vec<Line>,
) -> Result<usize, AllocError>
    requires { depth < tree_limit }
    ensures { IfOk result (λ d. (d ≡ inner kind depth) × (lines.new.items ≡ lines.old.items ++ line kind index depth)) }
{
    if joins(kind) {
        return Ok(depth);
    }
    lines.push(Line { index, depth })?;
    Ok(depth + 1)
}

// By index: the records of a tree lie in a lent list, and a part is an index into it.
/// Adds the lines of the tree whose root is at an index.
#[cycle(add_part)]
fn add(
    tree: &[TreeRecord],
    at: usize,
    depth: usize,
    lines: &mut Vec<Line>,
) -> Result<(), AllocError>
    requires { (at < length tree.now) × (depth + at < tree_limit) }
    ensures { OnOk result ((n : ℕ) (s : Syntax) → Stored tree.now n at s → Shaped s → lines.new.items ≡ lines.old.items ++ outlined s n depth) }
{
    let node = tree[at];
    let inside = head(node.kind, at, depth, lines)?;
    let parts = node.kind.parts();
    if parts == 0 {
        return Ok(());
    }
    part(tree, at, node.first, inside, lines)?;
    if parts == 1 {
        return Ok(());
    }
    part(tree, at, node.second, inside, lines)
}

/// Adds the lines of a part of the node at an index.
// By index, as the node itself.
#[cycle(add_part)]
fn part(
    tree: &[TreeRecord],
    above: usize,
    at: usize,
    depth: usize,
    lines: &mut Vec<Line>,
) -> Result<(), AllocError>
    requires { (above < length tree.now) × (depth + above ≤ tree_limit) }
    ensures { OnOk result ((n : ℕ) (s : Syntax) → at < above → Stored tree.now n at s → Shaped s → lines.new.items ≡ lines.old.items ++ outlined s n depth) }
{
    if at < above {
        add(tree, at, depth, lines)
    } else {
        Ok(())
    }
}

/// The lines of the tree whose root is at an index.
pub fn outline(heap: Global, tree: &[TreeRecord], root: usize) -> Result<Vec<Line>, AllocError>
    ensures { IfOk result (λ v. (s : Syntax) → root < tree_limit → Stored tree.now 0 root s → Shaped s → v.items ≡ outlined s 0 0) }
{
    let mut lines = Vec::new(heap);
    if root >= tree.len().min(MAX_RECORDS) {
        return Ok(lines);
    }
    add(tree, root, 0, &mut lines)?;
    Ok(lines)
}
