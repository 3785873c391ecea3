// A memory over words: a cell each, 65,536 at most. Words past these are never read or written.
ghost use Rattle.std.specs.Prelude.{◌≡◌, slice_set};
ghost use Rattle.std.proofs.Common.{ap, ◌∙◌, lit≤};
ghost use Rattle.memories.specs.Kinds.{behind};
ghost use Rattle.memories.specs.Laws.{behind_set};

use crate::lent::{Buffer, Lent, Part};
use runtime::memory::Outside;

pub type Words<'a> = Lent<&'a mut [i32]>;

impl Part for i32 {
    const MOST_CELLS: usize = 65536;

    ghost MOST_CELLS = { 65536 };

    ghost few = { lit≤ tt };
}

impl Buffer for &mut [i32] {
    type Part = i32;

    ghost cells = { λ words. words.now };

    ghost behind = { λ words. behind 65536 words.now };

    ghost place = { λ words. words.ghost_name };

    ghost Written = { λ a i v b. b.now ≡ slice_set a.now i v };

    fn cell_count(&self) -> usize {
        self.len()
    }

    fn cell(&self, i: usize) -> Option<i32> {
        self.get(i).copied()
    }

    fn set_cell(&mut self, i: usize, v: i32) -> Result<(), Outside> {
        // By index: the contract of `get_mut` says nothing of what the words end as.
        if i >= self.len() {
            return Err(Outside);
        }
        self[i] = v;
        Ok(())
    }

    ghost one_written = { λ a b i v f h e. e };

    ghost none_behind = { λ a b i v h e. ap (behind 65536) e ∙ behind_set 65536 a.now i v h };
}
