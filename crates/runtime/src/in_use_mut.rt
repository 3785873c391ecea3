// The cells of a memory that are in use, those below the top, and the room above them.
ghost use Rattle.std.specs.Prelude.{◌≡◌, ◌+◌, ◌-◌, ◌≤◌, ◌++◌, length, take, replicate, pos, is_ok, if◌then◌else◌, slice_set, unsigned_abs};
ghost use Rattle.runtime.specs.Access.{grown, over, stored};
ghost use Rattle.runtime.specs.Meanings.{Kept};

use crate::in_use::{InUse, place_below};
use crate::memory::Memory;
use crate::stop::Stop;

#[derive(Drop)]
pub struct InUseMut<'m, M: Memory> {
    memory: &'m mut M,
    top: usize,
    ghost within: { top ≤ length (M.cells memory.now) },
}

// Writes 0 to the cells from `from` up to `to`.
fn clear_cells<M: Memory>(memory: &mut M, from: usize, to: usize)
    requires { (from ≤ to) × (to ≤ length (M.cells memory.old)) }
    ensures below { take to (M.cells memory.new) ≡ take from (M.cells memory.old) ++ replicate (to - from) (pos 0) }
    ensures kept { Kept from (M.cells memory.old) to (M.cells memory.new) }
    ensures around { M.around memory.new ≡ M.around memory.old }
{
    // By number: a memory has no iterator. Each write lies inside, so that none is refused.
    for place in from..to {
        let _ = memory.write(place, 0);
    }
}

impl<'m, M: Memory> InUseMut<'m, M> {
    ghost use Rattle.runtime.specs.InUse as read;
    ghost use Rattle.runtime.specs.InUseMut.{below, cells, Keeps, lent, top};

    // A top past the memory's end counts as its end.
    pub fn new(memory: &'m mut M, top: usize) -> InUseMut<'m, M>
        ensures cells { cells result ≡ M.cells memory.old }
        ensures below { below result ≡ take top (M.cells memory.old) }
        ensures around { M.around result.memory.now ≡ M.around memory.old }
        ensures lent { lent result ≡ memory.entry.ghost_name }
    {
        let top = top.min(memory.len());
        InUseMut { memory, top }
    }

    pub fn reading(&self) -> InUse<'_, M>
        ensures { read.below result ≡ below self.now }
    {
        InUse::new(&*self.memory, self.top)
    }

    // Writes to the cell i where it lies below the top.
    pub fn set_cell(&mut self, i: usize, value: i32)
        ensures below { below self.new ≡ slice_set (below self.old) i value }
        ensures top { top self.new ≡ top self.old }
        ensures keeps { Keeps self.old self.new }
    {
        if i < self.top {
            // inside, so not refused
            let _ = self.memory.write(i, value);
        }
    }

    // Sets the cell at base plus index; the value is what was stored.
    pub fn store(&mut self, base: i32, index: i32, value: i32) -> Result<i32, Stop>
        ensures does { record { result = result; below = below self.new } ≡ stored (below self.old) base index value }
        ensures top { top self.new ≡ top self.old }
        ensures keeps { Keeps self.old self.new }
    {
        let place = place_below(self.top, base.wrapping_add(index)).ok_or(Stop::Address)?;
        self.memory.write(place, value)?;
        Ok(value)
    }

    // New cells that hold 0, by which the top rises; the value is the old top.
    pub fn grow(&mut self, size: i32) -> Result<i32, Stop>
        ensures does { record { result = result; below = below self.new } ≡ grown (length (cells self.old)) (below self.old) size }
        ensures top { top self.new ≡ (if is_ok result then top self.old + unsigned_abs size else top self.old) }
        ensures after { cells self.new ≡ over (cells self.old) (grown (length (cells self.old)) (below self.old) size).below }
        ensures keeps { Keeps self.old self.new }
    {
        let more = usize::try_from(size).map_err(|_| Stop::NegativeSize)?;
        if more > self.memory.len() - self.top {
            return Err(Stop::MemoryFull);
        }
        let old = self.top;
        clear_cells(self.memory, old, old + more);
        self.top += more;
        // `as` loses nothing: no memory has over 65,536 cells
        Ok(old as i32)
    }
}
