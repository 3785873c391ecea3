// The calls that change a stack. Each says what the cells and the depth are afterwards, and that the lent cells are still the
// same: one equation, which a name of its own would not make shorter.
ghost use Rattle.std.specs.Prelude.{◌≡◌, ◌+◌, ◌-◌, min, [], ◌∷◌, reverse, length, take, replicate, is_ok, if◌then◌else◌, nat_lt, slice_set};
ghost use Rattle.stack.specs.Held.{cells, depth, first, held, lent, rest};

use crate::{Full, NoEntry, Stack};

impl<'a, T: Copy> Stack<'a, T> {
    // An empty stack over the cells, which keep what they hold.
    pub fn new(lender: &'a mut [T]) -> Stack<'a, T>
        ensures after { cells result ≡ lender.old }
        ensures depth { depth result ≡ 0 }
        ensures held { held result ≡ [] }
        ensures lent { lent result ≡ lender.entry.ghost_name }
    {
        Stack {
            cells: lender,
            depth: 0,
        }
    }

    // A stack over cells that hold entries already, the first `entries` of them; a number past the last cell counts as all.
    // The cells are lent, so the number is told beside them.
    pub fn over(lender: &'a mut [T], entries: usize) -> Stack<'a, T>
        ensures after { cells result ≡ lender.old }
        ensures depth { depth result ≡ min entries (length lender.old) }
        ensures held { held result ≡ reverse (take entries lender.old) }
        ensures lent { lent result ≡ lender.entry.ghost_name }
    {
        let depth = entries.min(lender.len());
        Stack {
            cells: lender,
            depth,
        }
    }

    pub fn push(&mut self, x: T) -> Result<(), Full>
        ensures answer { is_ok result ≡ nat_lt (depth self.old) (length (cells self.old)) }
        ensures after { cells self.new ≡ slice_set (cells self.old) (depth self.old) x }
        ensures depth { depth self.new ≡ (if is_ok result then depth self.old + 1 else depth self.old) }
        ensures held { held self.new ≡ (if is_ok result then x ∷ held self.old else held self.old) }
        ensures lent { lent self.new ≡ lent self.old }
    {
        // By index: the contract of `get_mut` says nothing of what the cells end as.
        if self.depth >= self.cells.len() {
            return Err(Full);
        }
        self.cells[self.depth] = x;
        self.depth += 1;
        Ok(())
    }

    // The entry on top, taken off; its cell keeps it.
    pub fn pop(&mut self) -> Option<T>
        ensures answer { result ≡ first (held self.old) }
        ensures after { cells self.new ≡ cells self.old }
        ensures depth { depth self.new ≡ depth self.old - 1 }
        ensures held { held self.new ≡ rest (held self.old) }
        ensures lent { lent self.new ≡ lent self.old }
    {
        self.depth = self.depth.checked_sub(1)?;
        Some(self.cells[self.depth])
    }

    pub fn set(&mut self, i: usize, x: T) -> Result<(), NoEntry>
        ensures answer { is_ok result ≡ nat_lt i (depth self.old) }
        ensures after { cells self.new ≡ (if is_ok result then slice_set (cells self.old) i x else cells self.old) }
        ensures depth { depth self.new ≡ depth self.old }
        ensures lent { lent self.new ≡ lent self.old }
    {
        // By index, as in `push`: of a write through `get_mut` nothing is known.
        if i >= self.depth {
            return Err(NoEntry);
        }
        self.cells[i] = x;
        Ok(())
    }

    // Takes every entry off, and writes `blank` to every cell, so that nothing is left over.
    pub fn clear(&mut self, blank: T)
        ensures after { cells self.new ≡ replicate (length (cells self.old)) blank }
        ensures depth { depth self.new ≡ 0 }
        ensures held { held self.new ≡ [] }
        ensures lent { lent self.new ≡ lent self.old }
    {
        self.depth = 0;
        // By number: with `fill_with` no bug could be planted that leaves the first cell and is refused for that alone.
        for i in 0..self.cells.len() {
            self.cells[i] = blank;
        }
    }
}
