// What a stack tells.
ghost use Rattle.std.specs.Prelude.{◌≡◌, ◌-◌, length};
ghost use Rattle.std.specs.List.{slice_get};
ghost use Rattle.stack.specs.Held.{cells, depth, entries};

use crate::Stack;

impl<'a, T: Copy> Stack<'a, T> {
    pub fn depth(&self) -> usize
        ensures { result ≡ depth self.now }
    {
        self.depth
    }

    // How many cells are free.
    pub fn room(&self) -> usize
        ensures { result ≡ length (cells self.now) - depth self.now }
    {
        self.cells.len() - self.depth
    }

    // The entry at a place, counted from the bottom.
    pub fn get(&self, i: usize) -> Option<T>
        ensures { result ≡ slice_get (entries self.now) i }
    {
        self.cells[..self.depth].get(i).copied()
    }
}
