// A memory packed in bytes: four to a cell, the low byte first, 16,384 cells at most. Bytes past these, or past the last
// whole four, are never read or written.
ghost use Rattle.std.specs.Prelude.{◌≡◌};
ghost use Rattle.std.proofs.Common.{ap, ◌∙◌, lit≤, of_z, w32};
ghost use Rattle.packing.specs.Packing.{cells_of, packed_in};
ghost use Rattle.memories.specs.Kinds.{bytes_behind};
ghost use Rattle.memories.specs.Laws.{packed_behind, packed_cells};

use crate::lent::{Buffer, Lent, Part};
use packing::{WORD_BYTES, cell_at, set_word};
use runtime::memory::Outside;

pub type Packed<'a> = Lent<&'a mut [u8]>;

impl Part for u8 {
    const MOST_CELLS: usize = 16384;

    ghost MOST_CELLS = { 16384 };

    ghost few = { lit≤ tt };
}

impl Buffer for &mut [u8] {
    type Part = u8;

    ghost cells = { λ bytes. cells_of bytes.now };

    ghost behind = { λ bytes. bytes_behind 16384 bytes.now };

    ghost place = { λ bytes. bytes.ghost_name };

    ghost Written = { λ a i v b. b.now ≡ packed_in a.now i (of_z w32 v) };

    #[tactic(auto, using(packing::proofs::Cells::length_cells))]
    fn cell_count(&self) -> usize {
        self.len() / WORD_BYTES
    }

    fn cell(&self, i: usize) -> Option<i32> {
        cell_at(&**self, i)
    }

    #[tactic(auto, using(packing::proofs::Cells::length_cells))]
    fn set_cell(&mut self, i: usize, v: i32) -> Result<(), Outside> {
        set_word(&mut **self, i, v.cast_unsigned()).map_err(|_| Outside)
    }

    ghost one_written = { λ a b i v f h e. ap cells_of e ∙ packed_cells a.now i v f h };

    ghost none_behind = { λ a b i v h e. ap (bytes_behind 16384) e ∙ packed_behind 16384 a.now i (of_z w32 v) h };
}
