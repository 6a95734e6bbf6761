ghost use Rattle.std.specs.Prelude.{ℕ, ◌≤◌, length};

/// A stack that keeps its items in a lent slice, the oldest first.
// A length stands beside the slice, since the slots are lent: a Vec would take memory of its own.
#[derive(Drop)]
pub struct Stack<'a, T> {
    pub(crate) slots: &'a mut [T],
    pub(crate) len: usize,
    ghost low: { len ≤ length slots.now },
}

/// Every slot is taken: the item was not pushed.
#[derive(Clone, Copy, PartialEq, Eq, Debug)]
pub struct Full;
