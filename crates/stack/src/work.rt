ghost use Rattle.std.specs.Prelude.{◌≡◌, ℕ, ◌+◌, ◌-◌, ◌<◌, ◌≤◌, min, [], ◌∷◌, ◌++◌, length, take, MatchOption, MatchResult, slice_index_or};
ghost use Rattle.stack.specs.Items.{items, room, Pushed, Popped, Kept};

use crate::pile::{Full, Stack};

impl<'a, T: Copy> Stack<'a, T> {
    /// An empty stack over the slots.
    pub fn new(slots: &'a mut [T]) -> Stack<'a, T>
        ensures empty { items result ≡ [] }
        ensures slots { (result.len ≡ 0) × (result.slots.now ≡ slots.old) }
        ensures lent { result.slots.ghost_name ≡ slots.entry.ghost_name }
    {
        Stack { slots, len: 0 }
    }

    /// A stack whose items are the first `len` slots, or all slots where there are fewer.
    pub fn over(slots: &'a mut [T], len: usize) -> Stack<'a, T>
        ensures held { items result ≡ take len slots.old }
        ensures slots { (result.len ≡ min len (length slots.old)) × (result.slots.now ≡ slots.old) }
        ensures lent { result.slots.ghost_name ≡ slots.entry.ghost_name }
    {
        let len = len.min(slots.len());
        Stack { slots, len }
    }

    /// How many items there are.
    pub fn len(&self) -> usize
        ensures { (result ≡ length (items self.now)) × (result ≡ self.now.len) }
    {
        self.items().len()
    }

    /// The item at `i`, counted from the oldest, or none where there is none.
    pub fn get(&self, i: usize) -> Option<T>
        ensures { MatchOption result (length (items self.now) ≤ i) (λ x. (i < length (items self.now)) × (x ≡ slice_index_or (items self.now) i x)) }
    {
        self.items().get(i).copied()
    }

    /// The newest item, or none where there is none.
    pub fn top(&self) -> Option<T>
        ensures { MatchOption result (items self.now ≡ []) (λ x. (0 < length (items self.now)) × (x ≡ slice_index_or (items self.now) (length (items self.now) - 1) x)) }
    {
        self.items().last().copied()
    }

    /// Puts an item on top, or refuses and alters nothing where every slot is taken.
    pub fn push(&mut self, x: T) -> Result<(), Full>
        ensures held { MatchResult result (λ _. Pushed x self.old self.new) (λ _. (length (items self.old) ≡ room self.old) × Kept self.old self.new) }
        ensures lent { self.new.slots.ghost_name ≡ self.old.slots.ghost_name }
    {
        if self.len == self.slots.len() {
            return Err(Full);
        }
        self.slots[self.len] = x;
        self.len += 1;
        Ok(())
    }

    /// Takes the newest item off, or answers none where there is none.
    pub fn pop(&mut self) -> Option<T>
        ensures held { MatchOption result ((items self.old ≡ []) × Kept self.old self.new) (λ x. Popped x self.old self.new) }
        ensures lent { self.new.slots.ghost_name ≡ self.old.slots.ghost_name }
    {
        self.len = self.len.checked_sub(1)?;
        Some(self.slots[self.len])
    }

    /// The items, the oldest first.
    pub fn items(&self) -> &[T]
        ensures { result.now ≡ items self.now }
    {
        &self.slots[..self.len]
    }
}
