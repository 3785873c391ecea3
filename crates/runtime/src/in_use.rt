// The cells of a memory that are in use, those below the top, to be read alone.
ghost use Rattle.std.specs.Prelude.{◌≡◌, ◌≤◌, length, take, pos, slice_index_or};
ghost use Rattle.runtime.specs.Access.{fetched, place};

use crate::memory::Memory;
use crate::stop::Stop;

// Whoever holds the memory as a `&` reads it by this; `InUseMut` reads by it too.
#[derive(Drop)]
pub struct InUse<'m, M: Memory> {
    memory: &'m M,
    top: usize,
    ghost within: { top ≤ length (M.cells memory.now) },
}

// The place that an address names, where it lies below the top.
pub(crate) fn place_below(top: usize, address: i32) -> Option<usize>
    ensures { result ≡ place top address }
{
    let place = usize::try_from(address).ok()?;
    (place < top).then_some(place)
}

impl<'m, M: Memory> InUse<'m, M> {
    ghost use Rattle.runtime.specs.InUse.{below};

    // A top past the memory's end counts as its end.
    pub fn new(memory: &'m M, top: usize) -> InUse<'m, M>
        ensures { below result ≡ take top (M.cells memory.now) }
    {
        InUse {
            memory,
            top: top.min(memory.len()),
        }
    }

    pub fn top(&self) -> usize
        ensures { result ≡ length (below self.now) }
    {
        self.top
    }

    // The cell i, or 0 where i is not below the top.
    pub fn cell(&self, i: usize) -> i32
        ensures { result ≡ slice_index_or (below self.now) i (pos 0) }
    {
        if i < self.top {
            self.memory.read(i).unwrap_or(0)
        } else {
            0
        }
    }

    // The cell at base plus index.
    pub fn fetch(&self, base: i32, index: i32) -> Result<i32, Stop>
        ensures { result ≡ fetched (below self.now) base index }
    {
        place_below(self.top, base.wrapping_add(index))
            .and_then(|place| self.memory.read(place))
            .ok_or(Stop::Address)
    }
}
