// A memory: numbered cells of 32 bits, each signed.
ghost use Rattle.std.specs.Prelude.{◌≡◌, ℕ, ◌≤◌, List, length, ℤ, is_ok, nat_lt, slice_set};
ghost use Rattle.std.specs.List.{slice_get};
ghost use Rattle.runtime.specs.Meanings.{Around};

// There is no cell at that place. An error of its own, as is packing's: neither crate stands on the other.
#[derive(Clone, Copy, Debug, PartialEq, Eq)]
pub struct Outside;

pub trait Memory {
    // The most cells that a memory of this kind can have, never over 65,536.
    const MAX_CELLS: usize;

    ghost MAX_CELLS: { ℕ };

    ghost cells: { Self → List ℤ };

    ghost around: { Self → Around };

    fn len(&self) -> usize
        ensures answer { result ≡ length (cells self.now) }
        ensures most { result ≤ MAX_CELLS }
        ensures small { result ≤ 65536 };

    // The cell, or nothing outside.
    fn read(&self, i: usize) -> Option<i32>
        ensures { result ≡ slice_get (cells self.now) i };

    // Sets that cell only; outside it refuses and alters nothing.
    fn write(&mut self, i: usize, v: i32) -> Result<(), Outside>
        ensures answer { is_ok result ≡ nat_lt i (length (cells self.old)) }
        ensures after { cells self.new ≡ slice_set (cells self.old) i v }
        ensures around { around self.new ≡ around self.old };

    // MAX_CELLS, from a memory at hand.
    final fn limit(&self) -> usize
        ensures answer { result ≡ MAX_CELLS }
        ensures small { result ≤ 65536 }
    {
        Self::MAX_CELLS
    }

    ghost few: { MAX_CELLS ≤ 65536 };
}
